//! Labels with commas between them, by which a wait names several requests.

ghost use Rattle.std.specs.Prelude.{◌≡◌};
ghost use Rattle.scenario_lang.specs.Reading.{labels_of};

use crate::lines::cut;
use crate::numerals::{is_label, label_from};
use arrayvec::ArrayVec;
use board_model::Label;

/// The most labels of one wait.
const GROUP_LIMIT: usize = 8;

/// Reads one to eight labels with commas between them.
pub fn label_group(word: &[u8]) -> Option<ArrayVec<Label, GROUP_LIMIT>>
    ensures { result ≡ labels_of word.now }
{
    let mut labels = ArrayVec::new();
    let mut rest = word;
    for _ in 0..GROUP_LIMIT {
        let Some((first, after)) = cut(b',', rest) else {
            if !is_label(rest) {
                return None;
            }
            labels.push(label_from(rest));
            return Some(labels);
        };
        if !is_label(first) {
            return None;
        }
        labels.push(label_from(first));
        rest = after;
    }
    None
}
