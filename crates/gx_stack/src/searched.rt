// Which children of a layer are searched for records inside a span.
ghost use Rattle.std.specs.Prelude.{◌≡◌, ◌<◌};
ghost use Rattle.gx_mapping.specs.Searched.{is_searched};

use gx_mapping::Mapping;
use gx_values::Span;

// Whether a child may have parts that records inside the span are gathered from.
pub fn is_searched<M: Mapping>(mapping: &M, child: u16, span: &Span) -> bool
    requires { child < (M.rule mapping.now).kids }
    ensures { result ≡ is_searched (M.rule mapping.now) span.now child }
{
    mapping.holds_rest(child) && !mapping.skips(child, span)
}
