// Leaves are laid out on pages, and made.
ghost use Rattle.std.specs.Prelude.{◌≡◌, length, IsTrue, IfOk, OnOk};
ghost use Rattle.gx_ports.specs.PageCalls.{KeepsPages, CountsPageFaults};
ghost use Rattle.gx_leaves.specs.Places.{places_of, IsRoomFor, IsLaidOut};
ghost use Rattle.gx_leaves.specs.Making.{IsAllFree, AreMade};

use crate::files::make_file;
use gx_device::Failed;
use gx_ports::{LeafSpec, Pages, Place};
use std::alloc::{AllocError, Global};

/// The places of leaves: their root pages lie one behind the other, from the first page past the
/// table on.
pub fn lay_out<P: Pages>(
    alloc: Global,
    pages: &P,
    specs: &[LeafSpec],
) -> Result<Vec<Place>, AllocError>
    requires { IsRoomFor (P.ground pages.now) specs.now }
    ensures { IfOk result (λ v. v.items ≡ places_of (P.ground pages.now) specs.now) }
{
    let end = pages.pages();
    let mut places = Vec::new(alloc);
    let mut root = pages.tables();
    let mut owner = 1;
    for spec in specs {
        places.push(Place {
            spec: *spec,
            root,
            owner,
        })?;
        root += spec.kind.roots();
        owner += 1;
    }
    prove!(root <= end);
    Ok(places)
}

/// Makes an empty file at each place, on pages of which none past the table has an owner.
pub fn make_files<P: Pages>(pages: &mut P, places: &[Place]) -> Result<(), Failed>
    requires { IsLaidOut (P.ground pages.old) places.now }
    ensures made { IsTrue P.tells → IsAllFree (P.ground pages.old) (P.working pages.old) →
        OnOk result
        (AreMade (P.ground pages.old) places.now (length places.now) (P.working pages.new)) }
    ensures keeps { KeepsPages P.PageView pages.old pages.new }
    ensures faults { CountsPageFaults P.PageView pages.old pages.new result }
{
    for place in places {
        make_file(pages, place)?;
    }
    Ok(())
}
