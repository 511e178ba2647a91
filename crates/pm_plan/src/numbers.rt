ghost use Rattle.std.specs.Prelude.{◌≡◌, ◌<◌, ◌^◌, List, ℕ, length, map, is_none, unwrap_or, IfOk};
ghost use Rattle.std.specs.Prelude.{OnOk};
ghost use Rattle.std.specs.Str.{bytes_eq};
ghost use Rattle.indexmap.specs.IndexMap.{get_by_text};
ghost use Rattle.pm_plan.specs.Directories.{KnowsNames};
ghost use Rattle.pm_plan.specs.Numbers.{first_repeat, number_of, or_here};
ghost use Rattle.pm_plan.specs.Plans.{clp_of};

use crate::named::Named;
use indexmap::IndexMap;
use pm_base::Memory;
use std::alloc::Global;

/// Gives the name that number, unless it has one already. Whether it had none.
#[tactic(auto, using(std::proofs::lemmas::Map::Text::text_keys))]
fn note(
    alloc: Global,
    numbers: &mut IndexMap<String, u32>,
    name: &str,
    number: u32,
) -> Result<bool, Memory>
    ensures numbers { OnOk result ((n : List ℕ) →
        get_by_text numbers.new n ≡ or_here (get_by_text numbers.old n) (bytes_eq n name.now) number) }
    ensures had { IfOk result (λ new. new ≡ is_none (get_by_text numbers.old name.now)) }
{
    if numbers.contains_key(name) {
        return Ok(false);
    }
    let key = String::from_str(alloc, name)?;
    numbers.insert(key, number)?;
    Ok(true)
}

/// The least index whose name stands at a lower index.
pub fn first_repeat<T: Named>(alloc: Global, rows: &[T]) -> Result<Option<u32>, Memory>
    requires { length rows.now < 2 ^ 32 }
    ensures { IfOk result (λ r. r ≡ first_repeat (map T.text rows.now)) }
{
    let mut numbers = IndexMap::new(alloc);
    for (i, row) in rows.iter().enumerate() {
        if !note(alloc, &mut numbers, row.name().as_str(), i as u32)? {
            return Ok(Some(i as u32));
        }
    }
    Ok(None)
}

/// The numbers of the names of communication processes, and how many processes there are.
#[derive(Drop)]
pub struct Directory {
    numbers: IndexMap<String, u32>,
    count: u32,
}

impl Directory {
    /// The directory of these rows.
    pub fn make<T: Named>(alloc: Global, rows: &[T]) -> Result<Directory, Memory>
        requires { length rows.now < 2 ^ 32 }
        ensures { IfOk result (λ d. KnowsNames d (map T.text rows.now)) }
    {
        let mut numbers = IndexMap::new(alloc);
        for (i, row) in rows.iter().enumerate() {
            note(alloc, &mut numbers, row.name().as_str(), i as u32)?;
        }
        Ok(Directory {
            numbers,
            count: rows.len() as u32,
        })
    }

    /// The number of the process of that name; the number past the last one where there is none.
    pub fn clp_of(&self, name: &str) -> u32
        ensures { (names : List (List ℕ)) → KnowsNames self.now names → result ≡ clp_of names name.now }
    {
        match self.numbers.get(name) {
            Some(number) => *number,
            None => self.count,
        }
    }
}
