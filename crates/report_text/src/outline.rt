use mc_base::Refusal;

/// What the place of a journal's line among the others hangs on.
#[derive(Clone, Copy)]
pub enum Outline {
    Turn,
    Back { peer: u8, count: u32 },
    Put { peer: u8 },
    See { peer: u8, count: u32 },
    Take { peer: u8 },
    Idle { turns: u64 },
    Again { word: Refusal },
    Spin { times: u64, word: Refusal },
    Wait,
    Call { number: u32, refused: bool },
}
