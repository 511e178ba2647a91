ghost use Rattle.std.specs.Prelude.{◌≡◌, []};
ghost use Rattle.toml.specs.View.{table_view};
ghost use Rattle.pm_scenario.specs.Forms.{Gives, field_at, walk};
ghost use Rattle.pm_scenario.specs.Places.{prefix_of};
ghost use Rattle.pm_scenario.specs.Scenarios.{version_number, known, version, draft_of_root};
ghost use Rattle.pm_scenario.specs.Scenarios.{clp_form, class_form, var_form, agent_form, root_form};

use crate::ScenarioFault;
use crate::fields::{count_at, find, no_strange, number_at, optional_text_at, text_at};
use crate::place::Place;
use crate::tables::{FromTable, tables_at};
use pm_base::{List, Name, Value};
use pm_plan::{ClassPart, ClpPart, VarPart};
use std::alloc::Global;
use toml::Table;

/// A version of scenarios and of their rules.
#[derive(Clone, Copy)]
pub enum Version {
    One,
    Two,
}

impl Version {
    pub fn number(self) -> u32
        ensures { result ≡ version_number self }
    {
        match self {
            Version::One => 1,
            Version::Two => 2,
        }
    }
}

/// An agent whose rule is still a text.
#[derive(Drop)]
pub struct AgentText {
    pub name: Name,
    pub home: Name,
    pub start: u64,
    pub rule: Name,
}

/// What a scenario says, each rule still a text.
#[derive(Drop)]
pub struct Draft {
    pub version: Version,
    pub horizon: u64,
    pub move_after: u64,
    pub clps: List<ClpPart>,
    pub classes: List<ClassPart>,
    pub agents: List<AgentText>,
}

impl FromTable for ClpPart {
    ghost form = { clp_form };

    #[tactic(auto, unfolding(crate::specs::Scenarios::clp_form))]
    fn read(alloc: Global, place: &Place<'_>, table: &Table) -> Result<ClpPart, ScenarioFault> {
        no_strange(alloc, place, &["name", "parent"], table)?;
        let name = text_at(alloc, place, "name", table)?;
        let parent = optional_text_at(alloc, place, "parent", table)?;
        Ok(ClpPart { name, parent })
    }
}

impl FromTable for VarPart {
    ghost form = { var_form };

    #[tactic(auto, unfolding(crate::specs::Scenarios::var_form))]
    fn read(alloc: Global, place: &Place<'_>, table: &Table) -> Result<VarPart, ScenarioFault> {
        no_strange(alloc, place, &["name", "at", "x", "y"], table)?;
        let name = text_at(alloc, place, "name", table)?;
        let at = text_at(alloc, place, "at", table)?;
        let x = number_at(alloc, place, "x", 0, table)?;
        let y = number_at(alloc, place, "y", 0, table)?;
        Ok(VarPart {
            name,
            at,
            value: Value { x, y },
        })
    }
}

impl FromTable for ClassPart {
    ghost form = { class_form };

    #[tactic(auto, unfolding(crate::specs::Scenarios::class_form))]
    fn read(alloc: Global, place: &Place<'_>, table: &Table) -> Result<ClassPart, ScenarioFault> {
        no_strange(alloc, place, &["name", "var"], table)?;
        let name = text_at(alloc, place, "name", table)?;
        let vars = tables_at(alloc, place, "var", table)?;
        Ok(ClassPart { name, vars })
    }
}

impl FromTable for AgentText {
    ghost form = { agent_form };

    #[tactic(auto, unfolding(crate::specs::Scenarios::agent_form))]
    fn read(alloc: Global, place: &Place<'_>, table: &Table) -> Result<AgentText, ScenarioFault> {
        no_strange(alloc, place, &["name", "home", "start", "rule"], table)?;
        let name = text_at(alloc, place, "name", table)?;
        let home = text_at(alloc, place, "home", table)?;
        let start = count_at(alloc, place, "start", Some(0), table)?;
        let rule = text_at(alloc, place, "rule", table)?;
        Ok(AgentText {
            name,
            home,
            start,
            rule,
        })
    }
}

fn known(version: i64) -> Result<Version, ScenarioFault>
    ensures { Gives result (known version) }
{
    if version == 1 {
        Ok(Version::One)
    } else if version == 2 {
        Ok(Version::Two)
    } else {
        Err(ScenarioFault::Version)
    }
}

/// The version.
fn version_at(alloc: Global, place: &Place<'_>, table: &Table) -> Result<Version, ScenarioFault>
    ensures { Gives result (field_at version (prefix_of place.now) (table_view table.now)) }
{
    match find(table, "version") {
        Some(value) => match value.as_integer() {
            Some(version) => known(version),
            None => Err(ScenarioFault::Kind {
                key: place.path(alloc, "version")?,
            }),
        },
        None => Err(ScenarioFault::Missing {
            key: place.path(alloc, "version")?,
        }),
    }
}

impl FromTable for Draft {
    ghost form = { root_form };

    #[tactic(auto, unfolding(crate::specs::Scenarios::root_form, crate::specs::Forms::no_strange))]
    fn read(alloc: Global, place: &Place<'_>, table: &Table) -> Result<Draft, ScenarioFault> {
        no_strange(
            alloc,
            place,
            &["version", "horizon", "move_after", "clp", "class", "agent"],
            table,
        )?;
        let version = version_at(alloc, place, table)?;
        let horizon = count_at(alloc, place, "horizon", None, table)?;
        let move_after = count_at(alloc, place, "move_after", Some(0), table)?;
        let clps = tables_at(alloc, place, "clp", table)?;
        let classes = tables_at(alloc, place, "class", table)?;
        let agents = tables_at(alloc, place, "agent", table)?;
        Ok(Draft {
            version,
            horizon,
            move_after,
            clps,
            classes,
            agents,
        })
    }
}

/// What the root of a document says.
#[tactic(auto, unfolding(crate::specs::Scenarios::draft_of_root))]
pub fn draft_of_root(alloc: Global, root: &Table) -> Result<Draft, ScenarioFault>
    ensures { Gives result (draft_of_root (table_view root.now)) }
{
    version_at(alloc, &Place::Root, root)?;
    Draft::read(alloc, &Place::Root, root)
}
