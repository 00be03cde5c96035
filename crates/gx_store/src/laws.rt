// Laws of blocks that are opened.
ghost use Rattle.std.specs.Prelude.{◌≡◌, ℕ, List, length};
ghost use Rattle.gx_ports.specs.Heads.{Head};
ghost use Rattle.gx_ports.specs.LeafMaps.{LeafMap};
ghost use Rattle.gx_ports.specs.declared.kinds.LeafSpec.{LeafSpec};
ghost use Rattle.gx_pages.specs.Paged.{StandsFor as PagesStandFor};
ghost use Rattle.gx_leaves.specs.Wholeness.{IsLaid, StandsFor};
ghost use Rattle.gx_store.specs.Device.{IsHeadOf, IsSize, ReadAlike, Reopens, ground_on};

/// What opens some blocks opens all blocks from which the same is read, with the same maps. It does
/// nothing.
pub fn reopens_alike()
    ensures { (schema equation : List ℕ) (specs : List LeafSpec) (maps : List LeafMap)
        (old new : List (List ℕ)) → ReadAlike old new
        → Reopens schema equation specs maps old → Reopens schema equation specs maps new }
{}

/// Blocks that stand for whole maps, under a head that was read from a device of such a size, are
/// opened with these maps. It does nothing.
pub fn stored_reopens()
    ensures { (schema equation : List ℕ) (specs : List LeafSpec) (maps : List LeafMap)
        (head : Head) (start blocks : List (List ℕ)) → head.base ≡ ground_on start
        → IsHeadOf schema equation specs head → IsSize specs (length start)
        → StandsFor PagesStandFor head maps blocks → IsLaid PagesStandFor head blocks
        → Reopens schema equation specs maps blocks }
{}
