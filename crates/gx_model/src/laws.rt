// Laws of the definitions.
ghost use Rattle.std.specs.Prelude.{◌≡◌, ◌++◌, List, ℕ};
ghost use Rattle.gx_model.specs.Play.{Playing};
ghost use Rattle.gx_model.specs.Languages.{IsPlayTextIn};
ghost use Rattle.gx_model.specs.Runs.{Runs, IsPlayTextFrom};
ghost use Rattle.gx_model.specs.Paths.{with_paths};

use gx_schema::Schema;

/// The play of a script from a start has one text. It does nothing.
pub fn one_play_text(schema: &Schema)
    ensures { (start : Playing) (script text other : List ℕ)
        → IsPlayTextFrom schema.now start script text
        → IsPlayTextFrom schema.now start script other → text ≡ other }
{}

/// The play of a script with paths from a start has one text. It does nothing.
pub fn one_text_with_paths(schema: &Schema)
    ensures { (start : Playing) (script text other : List ℕ)
        → IsPlayTextIn (with_paths schema.now) start script text
        → IsPlayTextIn (with_paths schema.now) start script other → text ≡ other }
{}

/// Steps one after another go on where others ended. It does nothing.
pub fn runs_go_on(schema: &Schema)
    ensures { (start middle final : Playing) (first later : List (List ℕ)) (text more : List ℕ)
        → Runs schema.now start first text middle → Runs schema.now middle later more final
        → Runs schema.now start (first ++ later) (text ++ more) final }
{}
