// What a report says: the figures of a line and of the header.
#![tactic(auto)]

#[derive(Clone, Copy)]
pub struct Line {
    pub top: u16,
    pub tier: u8,
    pub tiers: u16,
    pub exposure: u64,
    pub limit: u64,
    pub left: u64,
    pub excess: u64,
}

#[derive(Clone, Copy)]
pub struct Head {
    pub lines: u16,
    pub vaf: u64,
    pub stressed_vaf: u64,
    pub all_net: u64,
    pub unlimited: u64,
    pub group_excess: u64,
    pub a3_sum: u64,
    pub a3_limit: u64,
    pub charge: u64,
}

// The header's figures that the groups have no part in.
#[derive(Clone, Copy)]
pub struct Figures {
    pub vaf: u64,
    pub stressed_vaf: u64,
    pub all_net: u64,
    pub unlimited: u64,
    pub a3_sum: u64,
    pub a3_limit: u64,
}
