use mc_base::{Buffer, NoMemory, limits_are_those_defined};

/// Whether a new buffer has its number, and so many bytes that are 0.
fn is_zero(made: Result<Buffer, NoMemory>, number: u16, length: usize) -> bool {
    match made {
        Ok(buffer) => {
            let bytes = buffer.bytes();
            buffer.number() == number && bytes.len() == length && bytes.iter().all(|b| *b == 0)
        }
        Err(_) => false,
    }
}

#[test]
fn a_new_buffer_is_zero(rt: HostRuntime) {
    assert!(rt; is_zero(Buffer::new(rt.alloc(), 7), 7, 512));
    limits_are_those_defined();
}

#[test]
fn a_buffer_has_the_length_that_was_asked_for(rt: HostRuntime) {
    assert!(rt; is_zero(Buffer::sized(rt.alloc(), 0, 64), 0, 64));
    assert!(rt; is_zero(Buffer::sized(rt.alloc(), 65_535, 1000), 65_535, 1000));
    assert!(rt; is_zero(Buffer::sized(rt.alloc(), 32_768, 4096), 32_768, 4096));
}
