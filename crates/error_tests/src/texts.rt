use domain_core::WaitFault;
use door_bell::BellFault;
use lane_end::LaneFault;
use mc_base::{
    BufInvalid, Fault, FrameFault, Full, LetterFault, NoMemory, NsFault, Reason, Refusal,
    RequestLimit, SclSize,
};
use mc_journal::NotAnEntry;
use outer_io::{Failed, ReadFault};
use ring_trace::ImageFault;
use scenario_lang::{LineReason, ScenarioFault};
use shared_words::RingFault;
use std::error::Error;
use std::fmt::InlineText;
use std::test::Fail;

/// Whether an error says something, in at most 160 bytes.
fn has_text<E: Error>(error: E) -> bool {
    let text: InlineText<160> = InlineText::of(error);
    !text.as_str().is_empty()
}

#[test]
fn each_refusal_has_a_text(rt: HostRuntime) -> Result<(), Fail> {
    let refusals = [
        Refusal::NodeInvalid,
        Refusal::ExistsAlready,
        Refusal::EndpLimit,
        Refusal::AddressSpent,
        Refusal::EndpInvalid,
        Refusal::PeerInvalid,
        Refusal::OnChannel,
        Refusal::ChanConnected,
        Refusal::EndpBusy,
        Refusal::ChanLimit,
        Refusal::RequestLimit,
        Refusal::NotConnected,
        Refusal::ChanDirection,
        Refusal::ChanType,
        Refusal::ChanClosed,
        Refusal::AlreadyOpen,
        Refusal::NotOpen,
        Refusal::MsgSize,
        Refusal::PktSize,
        Refusal::NoBuffer,
        Refusal::Empty,
        Refusal::SclSize,
        Refusal::BufInvalid,
        Refusal::RequestInvalid,
        Refusal::Pending,
        Refusal::TooLate,
        Refusal::Timeout,
        Refusal::LinkInvalid,
        Refusal::RawSound,
    ];
    for refusal in refusals {
        assert!(rt; has_text(refusal), "{refusal:?}");
    }
    Ok(())
}

#[test]
fn each_fault_of_a_frame_has_a_text(rt: HostRuntime) -> Result<(), Fail> {
    let faults = [
        Fault::Frame(FrameFault::FrameShort),
        Fault::Frame(FrameFault::FrameLong),
        Fault::Frame(FrameFault::HeaderLen),
        Fault::Letter(LetterFault::PayloadShort),
        Fault::Letter(LetterFault::Magic),
        Fault::Letter(LetterFault::Version),
        Fault::Letter(LetterFault::Kind),
        Fault::Letter(LetterFault::Argument),
        Fault::Letter(LetterFault::Channel),
        Fault::Letter(LetterFault::Size),
        Fault::Ns(NsFault::NsSize),
        Fault::Ns(NsFault::NsFlags),
        Fault::Ns(NsFault::NsName),
    ];
    for fault in faults {
        assert!(rt; has_text(fault), "{fault:?}");
    }
    Ok(())
}

#[test]
fn each_reason_of_a_line_has_a_text(rt: HostRuntime) -> Result<(), Fail> {
    let reasons = [
        LineReason::Byte,
        LineReason::Long,
        LineReason::Form,
        LineReason::Number,
        LineReason::Bytes,
        LineReason::Order,
        LineReason::Domain,
        LineReason::Link,
        LineReason::Label,
        LineReason::Sound,
    ];
    for reason in reasons {
        assert!(rt;
            has_text(ScenarioFault::Refused { line: 1, reason }),
            "{reason:?}"
        );
    }
    Ok(())
}

#[test]
fn each_fault_of_an_image_has_a_text(rt: HostRuntime) -> Result<(), Fail> {
    let faults = [
        ImageFault::ImageSize,
        ImageFault::Constant,
        ImageFault::IdxAhead,
        ImageFault::IdRange,
        ImageFault::LenRange,
    ];
    for fault in faults {
        assert!(rt; has_text(fault), "{fault:?}");
    }
    Ok(())
}

#[test]
fn each_other_error_has_its_text(rt: HostRuntime) -> Result<(), Fail> {
    let texts: [(InlineText<160>, &str); 17] = [
        (InlineText::of(NoMemory), "out of memory"),
        (InlineText::of(BufInvalid), "no lent packet has this id"),
        (InlineText::of(SclSize), "the front scalar has another size"),
        (
            InlineText::of(Full),
            "64 names of this domain are known, and no more can be",
        ),
        (
            InlineText::of(RequestLimit),
            "64 requests exist; take a result or cancel a request first",
        ),
        (
            InlineText::of(Reason::Busy),
            "the endpoint has queued messages or a waiting receive",
        ),
        (InlineText::of(Failed), "a read or a write failed"),
        (
            InlineText::of(ReadFault::TooLong),
            "the input has more bytes than the limit; shorten it",
        ),
        (
            InlineText::of(RingFault::Queue),
            "the number of the queue is neither 0 nor 1",
        ),
        (
            InlineText::of(RingFault::Length),
            "the length of the buffers is not a multiple of 64 from 64 to 4096",
        ),
        (
            InlineText::of(LaneFault::Size),
            "the size of a lane is not from 1 to 256 buffers",
        ),
        (
            InlineText::of(BellFault::Count),
            "the number of ringers is not from 1 to 14",
        ),
        (InlineText::of(BellFault::NoMemory), "out of memory"),
        (InlineText::of(ScenarioFault::NoMemory), "out of memory"),
        (
            InlineText::of(WaitFault::Refused(Refusal::Timeout)),
            "no named request was complete within the limit of turns",
        ),
        (InlineText::of(WaitFault::NoMemory), "out of memory"),
        (
            InlineText::of(NotAnEntry),
            "the line is no entry of a journal",
        ),
    ];
    for (text, expected) in &texts {
        assert_eq!(rt; text.as_str(), *expected);
    }
    Ok(())
}
