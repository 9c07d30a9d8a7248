// Clause 1, by name. It asks of the estimate only the blocks that it reads: an Estimate would ask for all.
// A set of names is a word, since words are joined with & and |; that it has no digit past the names is a clause.
ghost use Rattle.std.specs.Prelude.{◌≤◌, length};
ghost use Rattle.definitions.specs.Estimate.{estimate_of};
ghost use Rattle.sets.specs.Names.{NamesOnly};
ghost use Rattle.record_clauses.specs.Found.{found_in};
ghost use Rattle.record_clauses.specs.Known.{NamesFound};

use crate::Broken;

// The free names, ascending: the first that is not in its own set is the record, and is what is missing.
pub fn names(estimate: &[u8], free: u64) -> Result<(), Broken>
    requires there { 512 ≤ length estimate.now }
    requires names { NamesOnly free }
    ensures { NamesFound (estimate_of estimate.now) free (found_in result) }
{
    clauses::own_missing(estimate, free).map_err(|name| Broken {
        clause: 1,
        boxno: 0,
        place: usize::from(name.0),
        name,
    })
}
