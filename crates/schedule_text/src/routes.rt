//! The routes that a router keeps.

ghost use Rattle.std.specs.Prelude.{◌≡◌, ◌++◌, OnOk, OnErr, length, take};
ghost use Rattle.router_core.specs.Views.{plain_of};
ghost use Rattle.schedule_text.specs.Routes.{router_text};

use crate::report::route_line;
use ranked_policy::{Asn, Origin};
use router_core::Router;
use std::alloc::AllocError;

// Appends the path that a router keeps for the prefix of each origin. If memory is refused, some of the lines stand
// behind what the buffer had.
fn put_each_path(
    number: Asn,
    router: &Router<'_>,
    origins: &[Origin],
    out: &mut Vec<u8>,
) -> Result<(), AllocError>
    ensures kept { take (length out.old.items) out.new.items ≡ out.old.items }
    ensures ok { OnOk result
        (out.new.items ≡ out.old.items ++ router_text (plain_of router.now).router.kept number origins.now) }
{
    for origin in origins {
        let prefix = &origin.prefix;
        route_line(number, prefix, router.kept(prefix), out)?;
    }
    Ok(())
}

/// Appends the routes of a router: a line for the prefix of each origin, with this number and the path that the router
/// keeps for the prefix, or `none`.
///
/// It is refused only for want of memory, and then leaves what the buffer had.
pub fn put_router(
    number: Asn,
    router: &Router<'_>,
    origins: &[Origin],
    out: &mut Vec<u8>,
) -> Result<(), AllocError>
    ensures ok { OnOk result
        (out.new.items ≡ out.old.items ++ router_text (plain_of router.now).router.kept number origins.now) }
    ensures err { OnErr result (out.new.items ≡ out.old.items) }
{
    let start = out.len();
    let result = put_each_path(number, router, origins, out);
    if result.is_err() {
        out.truncate(start);
    }
    result
}
