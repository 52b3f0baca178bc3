use actor_lang::InputReason;
use std::fmt::InlineText;

/// The reasons, each with its word.
static WORDS: [(InputReason, &str); 4] = [
    (InputReason::Form, "form"),
    (InputReason::Number, "number"),
    (InputReason::Many, "many"),
    (InputReason::Bytes, "bytes"),
];

fn has_word((reason, word): (InputReason, &str)) -> bool {
    let text: InlineText<8> = InlineText::of(reason);
    text.as_str() == word
}

#[test]
fn reasons_have_their_words(rt: HostRuntime) {
    for row in WORDS.iter() {
        assert!(rt; has_word(*row));
    }
}
