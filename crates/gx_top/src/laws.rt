// Laws of requests, and of what they say.
ghost use Rattle.std.specs.Prelude.{◌≡◌, List, ℕ, Some};
ghost use Rattle.gx_device.specs.Content.{Content, Texts};
ghost use Rattle.gx_play.specs.declared.ending.Ending.{Ending as TheEnding};
ghost use Rattle.gx_ports.specs.declared.kinds.LeafSpec.{LeafSpec as Spec};
ghost use Rattle.gx_ports.specs.LeafMaps.{LeafMap, Limits, entry_count};
ghost use Rattle.gx_schema.specs.declared.schema.Schema.{Schema as TheSchema};
ghost use Rattle.gx_equation.specs.Trees.{DefinitionTree};
ghost use Rattle.gx_model.specs.Play.{Playing, End, start_at};
ghost use Rattle.gx_model.specs.States.{State};
ghost use Rattle.gx_model.specs.Languages.{IsPlayIn};
ghost use Rattle.gx_commands.specs.Lines.{script_lines};
ghost use Rattle.gx_sharing.specs.Sharing.{Sharing, share_start};
ghost use Rattle.gx_sharing.specs.Texts.{turns};
ghost use Rattle.gx_sharing.specs.Turns.{Turn as TheTurn, ArePlayed, committed_of, lines_of, answers_of, resting};
ghost use Rattle.gx_model.specs.Runs.{Runs};
ghost use Rattle.gx_states.specs.Terms.{state_size};
ghost use Rattle.gx_store.specs.Device.{Reopens};
ghost use Rattle.gx_store.specs.Store.{OfBlocks};
ghost use Rattle.gx_play.specs.Endings.{ending_line};
ghost use Rattle.gx_play.specs.Played.{IsPlay, MayBeFull};
ghost use Rattle.gx_play.specs.declared.status.Status.{Status};
ghost use Rattle.gx_requests.specs.Words.{Action, texts_of};
ghost use Rattle.gx_requests.specs.Requests.{IsRefused};
ghost use Rattle.gx_requests.specs.Checked.{IsStored};
ghost use Rattle.gx_operations.specs.Given.{Given, under, IsStoredAs, IsHeldOn};
ghost use Rattle.gx_operations.specs.Space.{HasFewPages};
ghost use Rattle.gx_top.specs.Complete.{IsUnhindered, IsDoneOrMemory};
ghost use Rattle.gx_top.specs.Ends.{AreEnds};
ghost use Rattle.gx_top.specs.Laws.{IsWholeText, PlayOneScript, AreCases, AreRefusedOrGiven, Follows};
ghost use Rattle.gx_top.specs.Needs.{AreEnough};
ghost use Rattle.gx_top.specs.Promised.{IsGiven};

use gx_requests::Stored;

/// Words whose texts are accepted are refused for no reason. It does nothing.
pub fn never_both(words: &[String])
    ensures { (texts : Texts) (why : TheEnding) (a : Action) (g : Given)
        → IsGiven (texts_of words.now) texts a g → ¬ IsRefused (texts_of words.now) texts why }
{}

/// All words are refused for a reason, or their texts are accepted, whatever the texts of the
/// machine are. It does nothing.
pub fn refused_or_accepted(words: &[String])
    ensures { (texts : Texts) → AreRefusedOrGiven (texts_of words.now) texts }
{}

/// They ask for one thing, and their texts mean one thing. It does nothing.
pub fn one_request(words: &[String])
    ensures { (texts : Texts) (a b : Action) (g h : Given)
        → IsGiven (texts_of words.now) texts a g → IsGiven (texts_of words.now) texts b h
        → (a ≡ b) × (g ≡ h) }
{}

/// A promise of a request is kept with a status that the request may have. It does nothing.
pub fn statuses(device: &str)
    ensures { (g : Given) (old new : Content) → AreEnds g device.now old new }
{}

/// The device that a request names is wrong for a reason, or it has the size, the magic and the
/// texts, and never both. It does nothing.
pub fn wrong_or_opened(device: &str)
    ensures { (g : Given) (c : Content) → AreCases g device.now c }
{}

/// Of what is stored, a device holds one state. It does nothing.
pub fn one_state(device: &str, stored: &Stored)
    requires { IsStored stored.now }
    ensures { (g : Given) (c : Content) (s t : State) → IsStoredAs g stored.now
        → IsHeldOn g device.now s c → IsHeldOn g device.now t c → s ≡ t }
{}

/// What a request on a device leaves for the next one on the machine that `top` hands back: the
/// texts are accepted as before, and `run`, `share` and `inspect` find the empty state after `make`
/// that ended with `Done`, the last kept state after `run` or `share` that ended with `Done` or
/// `Script`, and the state that was found after `inspect`. It does nothing.
pub fn requests_follow(words: &[String], device: &str)
    ensures { (g : Given) (old new : Content) → Follows (texts_of words.now) g device.now old new }
{}

/// A request is refused for one reason. It does nothing.
pub fn one_reason(words: &[String])
    ensures { (texts : Texts) (why other : TheEnding)
        → IsRefused (texts_of words.now) texts why → IsRefused (texts_of words.now) texts other
        → ending_line why ≡ ending_line other }
{}

/// All requests that play one script under one schema from one state, each to its end or to the
/// line that ends it, say one text: however the schema is written, and whatever their equations
/// are. It does nothing.
pub fn one_text(words: &[String])
    ensures { (others : List (List ℕ)) (before other : Content) (start : State)
        (text more : List ℕ)
        → PlayOneScript (texts_of words.now) others before other
        → IsWholeText (texts_of words.now) before start text
        → IsWholeText others other start more
        → text ≡ more }
{}

/// Each script has a play from each state, under each schema that is accepted. It does nothing.
pub fn each_script_is_played(words: &[String])
    ensures { (texts : Texts) (a : Action) (g : Given) (start : State) (script : List ℕ)
        → IsGiven (texts_of words.now) texts a g
        → (answers : List ℕ) × (final : Playing) × (end : End)
        × IsPlay g.schema start script answers final end }
{}

/// What the turns of a script committed, played on a device that holds a state: the lines of the
/// transactions that committed, one transaction after another in the order of their commits, are a
/// play from that state; the answer at each line is that of its turn, and the kept states are those
/// of the turns. It does nothing.
pub fn committed_turns_are_a_play()
    // Each of them has at its line the answer of its own turn.
    ensures each { (g : Given) (device : List ℕ) (c : Content) (start : State)
        (ts : List TheTurn) (final : Sharing) (end : End)
        → IsHeldOn g device start c
        → IsPlayIn (turns g.schema) (share_start start) (script_lines c.script) ts final end
        → ArePlayed g.schema (start_at start) (committed_of ts) (resting final) }
    // So the text of all their answers is that of a play of their lines.
    ensures text { (g : Given) (device : List ℕ) (c : Content) (start : State)
        (ts : List TheTurn) (final : Sharing) (end : End)
        → IsHeldOn g device start c
        → IsPlayIn (turns g.schema) (share_start start) (script_lines c.script) ts final end
        → Runs g.schema (start_at start) (lines_of (committed_of ts))
        (answers_of (committed_of ts)) (resting final) }
{}

/// Each script of turns has a play from each state, under each schema that is accepted. It does
/// nothing.
pub fn each_share_is_played(words: &[String])
    ensures { (texts : Texts) (a : Action) (g : Given) (start : State) (script : List ℕ)
        → IsGiven (texts_of words.now) texts a g
        → (ts : List TheTurn) × (final : Sharing) × (end : End)
        × IsPlayIn (turns g.schema) (share_start start) (script_lines script) ts final end }
{}

/// A request of any kind is carried out, or there was no memory, where its texts are accepted, no
/// call of the machine fails, and there is what the request needs: for `try` and `run` a script of
/// good lines that leaves no transaction open, for `share` turns so, for `explain` good lines, for
/// `run`, `share` and `inspect` a device that holds a state, for `make` and `work` a name that is
/// free and a size that is allowed, and for `run`, `share` and `work` pages that are enough at each
/// command. It does nothing.
pub fn done_or_memory(words: &[String])
    ensures { (old new : Content) (before now : ℕ) (s : Status)
        → IsUnhindered (texts_of words.now) old new before now s → IsDoneOrMemory s }
{}

/// Under two texts, with the leaves that the equation means, the blocks of a device hold one list
/// of maps at most. It does nothing.
pub fn one_list_of_maps(schema: &[u8], equation: &[u8])
    ensures { (specs : List Spec) (maps other : List LeafMap) (blocks : List (List ℕ))
        → Reopens schema.now equation.now specs maps blocks
        → Reopens schema.now equation.now specs other blocks
        → maps ≡ other }
{}

/// Of what is stored: the pages of a device that aren't free are at most those of the table and the
/// roots, and two for each entry of its leaves; so many entries has the state that it holds, where
/// it holds one. It does nothing.
pub fn few_pages(device: &str, stored: &Stored)
    requires { IsStored stored.now }
    ensures maps { (g : Given) (c : Content) (maps : List LeafMap) → IsStoredAs g stored.now
        → (opened : OfBlocks device.now c (under g Reopens maps))
        → HasFewPages g (entry_count maps) opened.0 }
    ensures state { (g : Given) (c : Content) (s : State) → IsStoredAs g stored.now
        → (held : IsHeldOn g device.now s c)
        → HasFewPages g (state_size g.schema g.definitions s) held.0 }
{}

/// Where the pages are enough at each command of a script's play, for the entries of the state
/// before it and of that behind it, the device is never full. It does nothing.
pub fn enough_pages(script: &[u8])
    ensures { (schema : TheSchema) (ds : List DefinitionTree) (limits : Limits) (start : State)
        (answers : List ℕ) (final : Playing)
        → AreEnough schema ds limits start script.now
        → ¬ MayBeFull schema ds (Some limits) start script.now answers final }
{}
