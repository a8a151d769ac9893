// The names of the request's LM, and its roots, each in order, so that one is looked for by halves.
ghost use Rattle.std.specs.Prelude.{◌≤◌, length};
ghost use Rattle.resolution.specs.Known.{Limited, LimitTold, RootsTold};

use records::bytes::be16;
use records::name::is_list;
use records::order::{insert_list, insert_names};
use records::record::{Cursor, Kind};

// Whether the request has an LM.
#[tactic(auto, using(crate::proofs::limits::Laws::limited_told))]
pub fn is_limited(request: &[u8]) -> bool
    ensures { Limited request.now result }
{
    let c = Cursor { at: 0 };
    c.next(request, Kind::LimitModules).is_some()
}

// Puts the names of the LM in order into the table, if it has room for them and the LM is a list, as it is where the check takes
// the request. Returns how many it tells then.
pub fn order_limits(request: &[u8], table: &mut [usize]) -> Option<usize>
    requires { length request.now ≤ 65535 }
    ensures { LimitTold request.now table.new result }
{
    let c = Cursor { at: 0 };
    match c.next(request, Kind::LimitModules) {
        Some(span) => {
            let b = span.of(request);
            let n = be16(b, 0);
            if table.len() < n {
                return None;
            }
            if is_list(b) {
                return Some(insert_list(request, span.start + 2, n, table));
            }
            None
        }
        None => None,
    }
}

// Puts the roots of the request in order into the table; returns their number.
pub fn order_roots(request: &[u8], table: &mut [usize]) -> usize
    requires request_len_bound { length request.now ≤ 65535 }
    requires in_bounds { 16384 ≤ length table.old }
    ensures { RootsTold request.now table.new result }
{
    insert_names(request, 0, request.len(), Kind::Root, table, 0)
}
