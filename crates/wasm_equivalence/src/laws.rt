//! What holds of whole modules in which functions were rewritten. A function here does nothing: its contract is the law.

ghost use Rattle.wasm_equivalence.specs.hosts.EmbedderLaws.{EmbeddersAreSound, FunctionsDoThemselves, HarnessesDoMore, OneFunctionRewritten, PiecesDo};
ghost use Rattle.wasm_equivalence.specs.hosts.EmbedderLaws.{ValidHarnessesDoMore, ValidModulesAreSound, ValidModulesDoMore, ValidModulesStayValid, ValidSessionsDoMore};
ghost use Rattle.wasm_equivalence.specs.control.Laws.{ReplacedCodeIsInOnePiece, StandardControlIsSound};
ghost use Rattle.wasm_equivalence.specs.modules.Running.{RewritesFollowOneAnother, RewrittenModulesDoMore, RunningIsSound, SessionsDoMore};

use wasm_execution::laws::sound_worlds_exist;

/// A module with rewritten functions, by itself, with the requested globals among its own, does what the module did (`rewritten`);
/// and rewrites may follow one another (`follow`).
pub fn rewritten_modules_do_more()
    ensures rewritten { RewrittenModulesDoMore }
    ensures follow { RewritesFollowOneAnother }
{}

/// The standard's control is sound, calls through tables included, and does in a module with more globals what it does in the
/// module.
pub fn standard_control_is_sound()
    ensures { StandardControlIsSound }
{}

/// Every body runs as itself, and as one in which instructions were replaced by others that run as they did.
pub fn replaced_code_is_in_one_piece()
    ensures { ReplacedCodeIsInOnePiece }
{}

/// Calls one after another (`calls`), and each by what those before it answered (`harnesses`); the worlds are sound, as that asks
/// (`sound`).
pub fn sessions_do_more()
    ensures calls { SessionsDoMore }
    ensures harnesses { HarnessesDoMore }
    ensures sound { RunningIsSound }
{}

/// Sound worlds make sound embedders (`exist`), one for each module (`each`), which stay sound behind further globals (`stay`),
/// where imports call exports back (`back`), and where they run any typed code of the host's (`code`), as one that catches every
/// trap of an export (`catches`).
pub fn embedders_are_sound()
    ensures { EmbeddersAreSound }
{
    sound_worlds_exist();
}

/// A valid module, in an embedder that is sound for it, and one whose functions do as its own: the new one answers as the old one
/// (`more`), also in calls one after another (`sessions`), each by what those before it answered (`harnesses`), and is valid
/// (`valid`). Its worlds are sound (`sound`).
pub fn valid_modules_do_more()
    ensures more { ValidModulesDoMore }
    ensures sessions { ValidSessionsDoMore }
    ensures harnesses { ValidHarnessesDoMore }
    ensures valid { ValidModulesStayValid }
    ensures sound { ValidModulesAreSound }
{}

/// A function that runs piece by piece as another, and stays valid, does as that.
pub fn pieces_do_as_before()
    ensures { PiecesDo }
{}

/// A module in which a single function was rewritten has functions that do as its own (`one`), and so has one in which none was
/// (`none`).
pub fn one_function_is_rewritten()
    ensures one { OneFunctionRewritten }
    ensures none { FunctionsDoThemselves }
{}
