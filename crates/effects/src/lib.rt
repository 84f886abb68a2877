// The effects of a decision's answer: what is left in ERROR, what is sent, and the codes returned.
#![tactic(auto)]

pub mod replies;
pub mod returning;
pub mod sending;

use registers::State;

// The reply bytes of an event, by name.
#[derive(Clone, Copy)]
pub enum Reply {
    Empty,
    One(u8),
    Two(u8, u8),
    Eprom,
    Serial,
    Timings,
    Packet,
    Low,
    OneThenLow(u8),
}

// The codes that an event returned, in their order.
#[derive(Clone, Copy)]
pub enum Returned {
    Nothing,
    One(u8),
    Two(u8, u8),
}

// The state that an event leaves, and what it sends.
#[derive(Clone, Copy)]
pub struct Responded {
    pub state: State,
    pub reply: Reply,
}
