// Messages, one to one and to all: what one is, what becomes of it, and what is answered.
#![tactic(auto)]

use frame::Refusal;
use station::Heard;

// An allowed cycle, in ticks: 0 to 65,535.
#[repr(C)]
#[derive(Clone, Copy, Default)]
pub struct Cycle(pub u16);

// What a start takes beside the settings of the station: the allowed cycle (RCT), and the version of our sequence numbers (V_SEQ).
#[repr(C)]
#[derive(Clone, Copy)]
pub struct Allowance {
    pub cycle: Cycle,
    pub version: u32,
}

// A message as the host hands it in, its data aside.
#[repr(C)]
#[derive(Clone, Copy, Default)]
pub struct Message {
    // DNA, 255 for all
    pub destination: u8,
    // TCD
    pub code: u16,
    // M_SZ
    pub size: u16,
    // M_ADD
    pub address: u32,
    // M_RLT
    pub result: u8,
}

// The fields of a message frame that are looked at.
#[derive(Clone, Copy)]
pub struct Letter {
    // SNA
    pub source: u8,
    // V_SEQ
    pub version: u32,
    // SEQ
    pub number: u32,
    pub message: Message,
    // BSIZE, the octets of its data
    pub octets: u16,
}

// What the host is told of a message that is handed over to it. Its data are the last octets of the frame.
#[derive(Clone, Copy)]
pub struct Delivery {
    pub source: u8,
    pub message: Message,
    pub octets: u16,
}

// A confirmation: the status of a message, its source, its code and its numbers.
#[repr(C)]
#[derive(Clone, Copy, PartialEq, Eq)]
pub struct Confirmation {
    // R_STS
    pub status: u8,
    // R_NA
    pub source: u8,
    // R_TCD
    pub code: u16,
    // R_VSEQ
    pub version: u32,
    // R_SEQ
    pub number: u32,
}

// What became of the message in the slot.
#[derive(Clone, Copy, PartialEq, Eq, Default)]
pub enum Mail {
    #[default]
    Nothing,
    Waiting,
    Unconfirmed,
    Confirmed,
    Sent,
    Failed,
}

// The message that waits to go or to be confirmed, or what became of the last one.
#[derive(Clone, Copy, Default)]
pub struct Slot {
    pub mail: Mail,
    pub message: Message,
    // The octets of its data, which stand in front in the mail buffer.
    pub octets: u16,
    // Its sequence number, 0 until it first goes.
    pub number: u32,
    // Since it last went: ticks and takings, up to what a resend waits for, and whether a status came that asks for one.
    pub ticks: u16,
    pub takings: u8,
    pub asked: bool,
    // How often it was sent again.
    pub resends: u8,
}

// A message for us, by its version and its number.
#[derive(Clone, Copy, PartialEq, Eq)]
pub enum Judged {
    Abnormal,
    OtherVersion,
    Repeat,
    New,
}

// What handing in a message answers. No Result: off is no refusal, and done says nothing that an Ok could hold.
#[derive(Clone, Copy)]
pub enum Posted {
    Off,
    Done,
    Refused(Refusal),
}

// What hearing answers: what the station of the base answers, or a message that is handed over.
#[derive(Clone, Copy)]
pub enum Received {
    Told(Heard),
    Message(Delivery),
}
