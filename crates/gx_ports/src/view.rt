// What contracts see of leaves.
ghost use Rattle.std.specs.Prelude.{Bool, List, ℕ, Option};
ghost use Rattle.gx_device.specs.Content.{Content};
ghost use Rattle.gx_ports.specs.LeafMaps.{LeafMap, Limits};
ghost use Rattle.gx_ports.specs.Heads.{Head};
ghost use Rattle.gx_ports.specs.Sheets.{Stored};

/// What contracts see of leaves. It has no code: it stands apart from `Leaves`, so that a clause
/// can name all of it at once.
pub trait View {
    /// Whether the leaves of this type tell what the device below holds.
    ghost tells: { Bool };

    /// What the device below holds, where that is told.
    ghost content: { Self → Content };

    /// How often a call of the device below failed. It stays in each call that doesn't answer
    /// `Fault` or `Failed`, but for a `say` that takes no byte.
    ghost faults: { Self → ℕ };

    /// The maps as they are.
    ghost working: { Self → List LeafMap };

    /// The maps of the last commit.
    ghost kept: { Self → List LeafMap };

    /// Nothing was changed since the last commit: another one calls nothing of the device.
    ghost unchanged: { Self → Type 0 };

    /// How many steps there were: one for each `select`, `insert` and `count` that answered Ok, and
    /// one for each entry that it gave or met. An `insert` that was refused may have counted so too.
    /// The number stays at 2 ^ 64 - 1 once it is there.
    ghost work: { Self → ℕ };

    /// The pages that limit the entries, and the blocks of the device on which they lie, where
    /// there is such a limit.
    ghost limit: { Self → Option Limits };

    /// What is stored on pages: those of the last commit, where leaves lie on pages.
    ghost stored: { Self → Option Stored };

    /// The stored form of each leaf is whole.
    ghost whole: { Self → Type 0 };

    /// The stored form of each leaf was whole at the last commit.
    ghost kept_whole: { Self → Type 0 };

    /// The stored form of this leaf is whole.
    ghost whole_at: { Self → ℕ → Type 0 };

    /// What all leaves share is as it should be: with it, the leaves are whole where each one is.
    ghost steady: { Self → Type 0 };

    /// This leaf is laid out as `reorganize` leaves it.
    ghost fresh: { Self → ℕ → Type 0 };

    /// Whether `put` and `remove` of this type never answer `NoMemory`.
    ghost frugal: { Bool };

    /// Which database it is. No call changes it.
    ghost head: { Self → Head };

    /// Blocks of a device below have this head, and stand for these maps.
    ghost stands: { Head → List LeafMap → List (List ℕ) → Type 0 };

    /// The stored form of each leaf is whole in these blocks.
    ghost laid: { Head → List (List ℕ) → Type 0 };

    /// A crash at any moment since that content leaves what stands for the kept maps, with this
    /// head. Every call but `commit` keeps that, whatever it answers.
    ghost calm: { Self → Content → Type 0 };
}
