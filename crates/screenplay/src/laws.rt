//! Laws of runs, stated over the definitions of `specs/` alone. Calling one of these functions
//! costs nothing and tells the caller's proof its law.

ghost use Rattle.std.specs.Prelude.{List};
ghost use Rattle.rtui_viewport.specs.Viewports.{IsInline};
ghost use Rattle.screenplay.specs.Appending.{IsAppending};
ghost use Rattle.screenplay.specs.Run.{IsRun};
ghost use Rattle.screenplay.specs.declared.scene.Scene.{Scene};
ghost use Rattle.screenplay.specs.declared.scene.Stage.{Stage};
ghost use Rattle.screenplay.specs.declared.scene.Step.{Step};

/// From any scene of a run on, and as long as the size stays, the rows above an inline viewport are
/// those of that scene, followed by all that were inserted since.
pub fn a_run_appends_what_it_inserts()
    ensures { (stage : Stage) (steps : List Step) (scenes : List Scene) → IsInline stage.viewport
        → IsRun stage steps scenes → IsAppending steps scenes }
{}
