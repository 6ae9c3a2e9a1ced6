// The quote: what a list of accesses to one area pays, one after another, and where the run ends.
ghost use Rattle.std.specs.Prelude.{◌≡◌, ◌≤◌, length};
ghost use Rattle.state.specs.Quote.{walked, quote_outcome, quoted};

use crate::access;
use outcome::Refusal;
use page_ids::Address;

// A longer list is refused.
const MOST_ADDRESSES: usize = 4096;

// The gas spent, the bound reached, and the position of the access that panics, or the list's length.
#[derive(Clone, Copy)]
pub struct RunEnd {
    pub spent: u32,
    pub bound: u32,
    pub position: u32,
}

// The accesses of the list, up to the first that panics.
fn walk(list: &[u32], gas: u32, bound: u32) -> RunEnd
    requires { length list.now ≤ 4096 }
    ensures { result ≡ walked gas list.now gas bound 0 }
{
    let mut left = gas;
    let mut reached = bound;
    for (i, &address) in list.iter().enumerate() {
        let grown = access(left, reached, Address(address));
        left = grown.gas;
        reached = grown.bound;
        if !grown.paid {
            return RunEnd {
                spent: gas - left,
                bound: reached,
                position: i as u32,
            };
        }
    }
    RunEnd {
        spent: gas - left,
        bound: reached,
        position: list.len() as u32,
    }
}

// What loads at these addresses, one after another, spend of the gas, which bound they reach, and where they end.
pub fn quote(list: &[u32], gas: u32, bound: u32) -> Result<RunEnd, Refusal>
    ensures { quote_outcome result ≡ quoted list.now gas bound }
{
    if list.len() > MOST_ADDRESSES {
        return Err(Refusal::Range);
    }
    Ok(walk(list, gas, bound))
}
