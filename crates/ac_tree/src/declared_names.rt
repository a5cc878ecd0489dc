//! What is declared of a name: what a look-up gives, and the look-up that walks over all declarations.
ghost use Rattle.std.specs.Prelude.{◌≡◌};
ghost use Rattle.std.specs.Option.{option_copied};
ghost use Rattle.ac_tree.specs.StaticRules.{kind_in};

use crate::name::Name;
use crate::program::{Item, ItemKind, Program};

/// Declarations that are looked up by name, in whatever way: a caller may rely on no more than this.
pub trait DeclaredNames {
    ghost use Rattle.std.specs.Prelude.{◌≡◌, List, take};
    ghost use Rattle.std.specs.Option.{option_copied};
    ghost use Rattle.ac_tree.specs.declared.program.Item.{Item};
    ghost use Rattle.ac_tree.specs.StaticRules.{kind_in};

    ghost listed: { Self → List Item };

    /// What the first declaration of a name says, if there is one.
    fn kind_of(&self, name: &Name) -> Option<&ItemKind>
        ensures { option_copied result ≡ kind_in (listed self.now) name.now };

    /// The same, where only the first `count` declarations count.
    fn kind_before(&self, count: usize, name: &Name) -> Option<&ItemKind>
        ensures { option_copied result ≡ kind_in (take count (listed self.now)) name.now };
}

/// A program's declarations as they stand: a look-up walks over them, and takes no memory.
impl DeclaredNames for Program {
    ghost listed = { λ p. p.items };

    fn kind_of(&self, name: &Name) -> Option<&ItemKind> {
        kind_of(self.items.as_slice(), name)
    }

    #[tactic(auto, using(std::proofs::lemmas::List::take_min))]
    fn kind_before(&self, count: usize, name: &Name) -> Option<&ItemKind> {
        let items = self.items.as_slice();
        kind_of(&items[..count.min(items.len())], name)
    }
}

/// What the first declaration of a name says, if there is one.
pub fn kind_of<'p>(items: &'p [Item], name: &Name) -> Option<&'p ItemKind>
    ensures { option_copied result ≡ kind_in items.now name.now }
{
    for item in items {
        if item.name == *name {
            return Some(&item.kind);
        }
    }
    None
}
