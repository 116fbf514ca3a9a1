//! Builds the one reading of a written term from what is known of its nodes.

ghost use Rattle.sort_terms.specs.ProfiledTerm.{FitsProfiles, ProfiledTerm};
ghost use Rattle.sort_terms.specs.ReaderView.{signature_read};
ghost use Rattle.sort_terms.specs.SortedView.{profiled_in};
ghost use Rattle.sort_terms.specs.Tables.{all_built_from, built_from, node_with};
ghost use Rattle.sort_terms.specs.TableView.{table_of, tables_of};
ghost use Rattle.sort_terms.specs.TermView.{all_profiled, profiled_of};
ghost use Rattle.sort_terms.specs.declared.counted.Counted.{out-Counted};
ghost use Rattle.std.specs.Option.{option_map};
ghost use Rattle.std.specs.Prelude.{◌≡◌, IfOk, Some, slice_get};

use crate::choices::Source;
use crate::counted::Counted;
use crate::reader::Reader;
use crate::sorted::Sorted;
use crate::terms::Term;
use lotos_base::NoMemory;

impl Reader<'_> {
    /// The one reading of this sort.
    pub(crate) fn only_reading(&self, counted: &Counted, sort: u32) -> Result<Sorted, NoMemory>
        requires { (p : ProfiledTerm) × (built_from (signature_read self.now)
            (table_of counted.now) sort ≡ Some p) × FitsProfiles p }
        ensures { IfOk result (λ t. built_from (signature_read self.now) (table_of counted.now) sort
            ≡ Some (profiled_in t)) }
    {
        let Some(term) = self.built(counted, sort)? else {
            unreachable!()
        };
        Ok(Sorted::of(term))
    }

    // The term of this sort that the node tells.
    #[cycle(building)]
    fn built(&self, counted: &Counted, sort: u32) -> Result<Option<Term>, NoMemory>
        ensures { IfOk result (λ t. option_map profiled_of t ≡ built_from (signature_read self.now)
            (table_of counted.now) sort) }
    {
        let Some(choice) = counted.choices.at(sort) else {
            return Ok(None);
        };
        match choice.source {
            Source::Variable(number) => Ok(Some(Term::Var { number, sort })),
            Source::Operation(number) => self.built_node(counted, number),
        }
    }

    // The operation with this number on the arguments that the node tells.
    #[cycle(building)]
    fn built_node(&self, counted: &Counted, number: u32) -> Result<Option<Term>, NoMemory>
        ensures { IfOk result (λ t. option_map profiled_of t ≡ node_with number
            (λ sorts. all_built_from (signature_read self.now)
            (tables_of (out-Counted counted.now).arguments.items) sorts)
            (slice_get (signature_read self.now).operations number)) }
    {
        let Some(profile) = self.profiles.get(number as usize) else {
            return Ok(None);
        };
        let Some(arguments) = self.all_built(&counted.arguments, &profile.arguments)? else {
            return Ok(None);
        };
        Ok(Some(Term::node(number, profile.clone()?, arguments)?))
    }

    // The terms of these sorts that the nodes tell.
    #[cycle(building)]
    fn all_built(
        &self,
        arguments: &Vec<Counted>,
        sorts: &Vec<u32>,
    ) -> Result<Option<Vec<Term>>, NoMemory>
        ensures { IfOk result (λ ts. option_map (λ v. all_profiled v.items) ts
            ≡ all_built_from (signature_read self.now)
            (tables_of arguments.now.items) sorts.now.items) }
    {
        if arguments.len() != sorts.len() {
            return Ok(None);
        }
        let mut built = Vec::with_capacity(self.alloc, arguments.len())?;
        for i in 0..arguments.len() {
            let Some(term) = self.built(&arguments[i], sorts[i])? else {
                return Ok(None);
            };
            built.push(term)?;
        }
        Ok(Some(built))
    }
}
