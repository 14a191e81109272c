// Capital cost per desk: one exposure line given what it may, and the desks' bills as bytes.
#![tactic(auto)]

ghost use Rattle.std.specs.Prelude.{◌≡◌, ◌+◌, ◌-◌, ◌≤◌, ◌<◌, ◌^◌, length, get_or};
ghost use Rattle.words.specs.Words.{sum};
ghost use Rattle.wire.specs.Bytes.{placed};
ghost use Rattle.bills.specs.Bills.{desk_count, most_cost_rate, bills_size, bill_bytes};
ghost use Rattle.bills.specs.Tables.{by_desk, most_excess, LineServed};

// How many desks there are.
pub const DESKS: usize = 256;

// The greatest rate, in ten-thousandths.
pub const MOST_RATE: u64 = 1000;

// The bills' bytes.
pub const SIZE: usize = 8 * DESKS;

const TEN_THOUSAND: u64 = 10000;

// A line of a cell is given what is still to be given there, and what of its amount that leaves is added to its desk.
pub fn serve(still: &mut [u64], desks: &mut [u64], cell: usize, amount: u64, desk: usize)
    requires { (cell < length still.old) × (desk < length desks.old) × (get_or desks.old desk 0 + (amount - get_or still.old cell 0) < 2 ^ 64) }
    ensures { LineServed cell amount desk still.old still.new desks.old desks.new }
{
    let left = still[cell];
    still[cell] = left.saturating_sub(amount);
    desks[desk] += amount.saturating_sub(left);
}

// Each desk's bill, desk by desk from 0: the cost of the running excess, less that cost before the desk. No byte behind them changes.
pub fn put(excesses: &[u64], rate: u64, bills: &mut [u8])
    requires { (desk_count ≤ length excesses.now) × (sum (by_desk excesses.now) desk_count ≤ most_excess) × (rate ≤ most_cost_rate) × (bills_size ≤ length bills.old) }
    ensures { bills.new ≡ placed bills.old 0 (bill_bytes (by_desk excesses.now) rate) }
{
    let mut running: u64 = 0;
    let mut before: u64 = 0;
    for d in 0..DESKS {
        running += excesses[d];
        let cost = running * rate / TEN_THOUSAND;
        placing::put_u64(bills, 8 * d, cost - before);
        before = cost;
    }
}
