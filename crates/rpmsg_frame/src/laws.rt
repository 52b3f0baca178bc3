ghost use Rattle.rpmsg_frame.specs.Laws.{MadeIsFrame};

/// What `encode_into` makes is a frame of the values that it was made of.
pub fn made_is_frame()
    ensures { MadeIsFrame }
{}
