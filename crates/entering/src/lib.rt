// An asset entered into the tables by place, the sums over reinsurance by counterparty and the sums of the fund's values.
#![tactic(auto)]

ghost use Rattle.assets.specs.Entered.{Enters, Entered};

use assets::Values;
use book::Asset;

// An asset of a counterparty with two such numbers and such a row: its entries, and the sums with it.
pub fn enter(
    a: Asset,
    place: usize,
    row: u16,
    word: u64,
    terms: u64,
    v: Values,
    draws: &mut [u16],
    halves: &mut [u64],
    rests: &mut [u64],
    places: &mut [u16],
) -> Values
    requires { Enters a place row v draws.old halves.old rests.old places.old }
    ensures { Entered a place row word terms v draws.old halves.old rests.old places.old draws.new halves.new rests.new places.new result }
{
    if book::is_reinsurance(a) {
        let stressed = exposure::stressed_of(a);
        let s = assets::share_of(a, stressed);
        let sums = assets::with_treaty(v, a, s, stressed);
        let cell = row + assets::treaty_column(a, terms);
        let on = assets::treaty_draws(a, terms);
        assets::settle(place, cell, s.rest, on, draws, rests, places);
        halves[usize::from(a.counterparty)] += s.rest;
        return sums;
    }
    let s = assets::share_of(a, a.value);
    let sums = assets::with_other(v, s);
    let cell = row + assets::kind_column(a, word);
    assets::settle(place, cell, s.rest, 0, draws, rests, places);
    sums
}
