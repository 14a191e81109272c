// An asset by itself: its share, the sums with it, whose half it draws on, its entries in the tables by place; and the halves of reinsurance by counterparty (C-18).
#![tactic(auto)]

ghost use Rattle.std.specs.Prelude.{◌≡◌, ◌+◌, ◌-◌, ◌/◌, ◌%◌, ◌^◌, ◌≤◌, ◌<◌, length, if◌then◌else◌};
ghost use Rattle.words.specs.Words.{◌=?◌};
ghost use Rattle.wire.specs.Bytes.{M};
ghost use Rattle.columns.specs.Column.{digit, age_of};
ghost use Rattle.assets.specs.Entered.{Shared, TreatyFits, with_treaty, with_other, Settled};
ghost use Rattle.assets.specs.Halves.{Halved};

use book::Asset;

// The sums over all assets: net, net of what is linked; over reinsurance: value, netted, and what each stressed value has above its netted.
#[derive(Clone, Copy)]
pub struct Values {
    pub all: u64,
    pub linked: u64,
    pub reinsurance: u64,
    pub netted: u64,
    pub stressed: u64,
}

// An asset's net, the same where it is linked, and where it is not.
#[derive(Clone, Copy)]
pub struct Share {
    pub net: u64,
    pub linked: u64,
    pub rest: u64,
}

// What offsets and deductions leave of an asset's value or stressed value.
pub fn share_of(a: Asset, from: u64) -> Share
    requires { (a.offsets ≤ M) × (a.deductions ≤ M) }
    ensures { Shared a from result }
{
    let net = from.saturating_sub(a.offsets + a.deductions);
    let linked = book::is_linked(a);
    Share {
        net,
        linked: choice::pick(linked, net, 0),
        rest: choice::pick(linked, 0, net),
    }
}

// The column of what remains of reinsurance.
pub fn treaty_column(a: Asset, terms: u64) -> u16
    requires { a.entry ≤ 3 }
    ensures { (result ≡ digit (age_of a.entry a.months) terms) × (result < 32) }
{
    columns::of_age(terms, u64::from(a.entry), u64::from(a.months)) as u16
}

// The column of what remains of any other asset.
pub fn kind_column(a: Asset, word: u64) -> u16
    requires { (0 < a.kind) × (a.kind < 12) }
    ensures { (result ≡ digit (a.kind - 1) word) × (result < 32) }
{
    columns::of_kind(word, u64::from(a.kind)) as u16
}

// The sums with reinsurance more, of such a stressed value.
pub fn with_treaty(v: Values, a: Asset, s: Share, stressed: u64) -> Values
    requires { TreatyFits v a s stressed }
    ensures { result ≡ with_treaty v a s stressed }
{
    Values {
        all: v.all + s.net,
        linked: v.linked + s.linked,
        reinsurance: v.reinsurance + a.value,
        netted: v.netted + a.offsets,
        stressed: v.stressed + stressed.saturating_sub(a.offsets),
    }
}

// The sums with any other asset more.
pub fn with_other(v: Values, s: Share) -> Values
    requires { (v.all + s.net < 2 ^ 64) × (v.linked + s.linked < 2 ^ 64) }
    ensures { result ≡ with_other v s }
{
    Values {
        all: v.all + s.net,
        linked: v.linked + s.linked,
        ..v
    }
}

// An asset's entries in the tables: its cell, what there is of it, and whose half it draws on.
pub fn settle(
    place: usize,
    cell: u16,
    rest: u64,
    on: u16,
    draws: &mut [u16],
    rests: &mut [u64],
    places: &mut [u16],
)
    requires { (place < length draws.old) × (place < length rests.old) × (place < length places.old) }
    ensures { Settled place cell rest on draws.old rests.old places.old draws.new rests.new places.new }
{
    places[place] = cell;
    rests[place] = rest;
    draws[place] = on;
}

// Whose half a treaty draws on, by its counterparty's terms: its counterparty's, or nobody's, which is 0.
pub fn treaty_draws(a: Asset, terms: u64) -> u16
    ensures { result ≡ (if terms / 2 ^ 60 % 2 =? 1 then a.counterparty else 0) }
{
    choice::pick(columns::half_of(terms) == 1, a.counterparty, 0)
}

// 2^62, above all that a book's assets can be together.
const ENDLESS: u64 = 4_611_686_018_427_387_904;

// Every entry of a table halved; then entry 0, nobody's half, endless.
pub fn halve(sums: &mut [u64])
    requires { 0 < length sums.old }
    ensures { Halved sums.old sums.new }
{
    for sum in sums.iter_mut() {
        *sum /= 2;
    }
    sums[0] = ENDLESS;
}
