ghost use Rattle.std.specs.Prelude.{◌≡◌};
ghost use Rattle.toml.specs.Errors.{IsMemory};
ghost use Rattle.toml.specs.Parse.{parse_document};
ghost use Rattle.pm_scenario.specs.Forms.{Gives};
ghost use Rattle.pm_scenario.specs.Scenarios.{draft_of_document, draft_of};

use crate::ScenarioFault;
use crate::draft::{Draft, draft_of_root};
use std::alloc::Global;

fn refusal(e: &toml::de::Error) -> ScenarioFault
    ensures memory { IsMemory e.now → result ≡ ScenarioFault.Memory }
    ensures refused { ¬ IsMemory e.now → result ≡ ScenarioFault.NotToml }
{
    if e.is_memory() {
        ScenarioFault::Memory
    } else {
        ScenarioFault::NotToml
    }
}

fn draft_of_text(alloc: Global, text: &str) -> Result<Draft, ScenarioFault>
    ensures { Gives result (draft_of_document (parse_document text.now)) }
{
    match toml::table_from_str(alloc, text) {
        Ok(root) => draft_of_root(alloc, &root),
        Err(e) => Err(refusal(&e)),
    }
}

/// What a text says.
#[tactic(auto, using(crate::proofs::Walks::walk_laws), unfolding(crate::specs::Scenarios::draft_of))]
pub fn draft_of(alloc: Global, bytes: &[u8]) -> Result<Draft, ScenarioFault>
    ensures { Gives result (draft_of bytes.now) }
{
    match std::str::from_utf8(bytes) {
        Ok(text) => draft_of_text(alloc, text),
        Err(_) => Err(ScenarioFault::NotToml),
    }
}
