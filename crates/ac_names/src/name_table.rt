//! The declarations of a program by their names.

ghost use Rattle.std.specs.Prelude.{◌≡◌, ℕ, ◌≤◌, ◌<◌, length, take, IfOk, IfSome};
ghost use Rattle.std.specs.Option.{option_copied};
ghost use Rattle.ac_tree.specs.StaticRules.{kind_in};
ghost use Rattle.ac_names.specs.Places.{place_in, ArePlaces};

use ac_tree::{DeclaredNames, Item, ItemKind, Name};
use std::alloc::{AllocError, Global};
use std::collections::HashMap;
use std::marker::Model;

/// The declarations of a program, with the place of the first declaration of each name. Contracts see it as the
/// declarations.
#[derive(Drop)]
pub struct NameTable<'p> {
    items: &'p [Item],
    places: HashMap<&'p str, usize>,
}

impl<'p> Model for NameTable<'p> {
    ghost use Rattle.std.specs.Prelude.{List};
    ghost use Rattle.ac_tree.specs.declared.program.Item.{Item};
    ghost use Rattle.ac_names.specs.Places.{ArePlaces};

    ghost Value = { List Item };

    ghost view = { λ t. t.items.now };

    ghost invariant = { λ t. ArePlaces t.items.now t.places.entries };
}

impl<'p> NameTable<'p> {
    /// The table of these declarations, built in one pass.
    pub fn new(alloc: Global, items: &'p [Item]) -> Result<NameTable<'p>, AllocError>
        ensures { IfOk result (λ table. table ≡ items.now) }
    {
        let places = places(alloc, items)?;
        Ok(NameTable { items, places })
    }

    /// The declarations.
    pub fn items(&self) -> &'p [Item]
        ensures { result.now ≡ self.now }
    {
        self.items
    }

    /// The place of the first declaration of a name.
    pub fn place_of(&self, name: &Name) -> Option<usize>
        ensures first { result ≡ place_in self.now name.now }
        ensures within { IfSome result (λ place. place < length self.now) }
    {
        self.places.get(name.text()).copied()
    }

    /// What the first declaration of a name says.
    pub fn kind_of(&self, name: &Name) -> Option<&'p ItemKind>
        ensures { option_copied result ≡ kind_in self.now name.now }
    {
        self.kind_before(self.items.len(), name)
    }

    /// The same, where only the first `count` declarations count.
    #[tactic(auto, using(crate::proofs::Places::place_rules))]
    pub fn kind_before(&self, count: usize, name: &Name) -> Option<&'p ItemKind>
        ensures { option_copied result ≡ kind_in (take count self.now) name.now }
    {
        match self.place_of(name) {
            None => None,
            Some(place) => {
                if place < count {
                    Some(&self.items[place].kind)
                } else {
                    None
                }
            }
        }
    }
}

/// A table looks each name up at once.
impl DeclaredNames for NameTable<'_> {
    ghost listed = { λ items. items };

    fn kind_of(&self, name: &Name) -> Option<&ItemKind> {
        NameTable::kind_of(self, name)
    }

    fn kind_before(&self, count: usize, name: &Name) -> Option<&ItemKind> {
        NameTable::kind_before(self, count, name)
    }
}

/// The place of the first declaration of each name.
fn places<'p>(alloc: Global, items: &'p [Item]) -> Result<HashMap<&'p str, usize>, AllocError>
    ensures { IfOk result (λ places. ArePlaces items.now places.entries) }
{
    let mut places = HashMap::with_capacity(alloc, items.len())?;
    for (place, item) in items.iter().enumerate() {
        places.entry(item.name.text())?.or_insert(place);
    }
    Ok(places)
}
