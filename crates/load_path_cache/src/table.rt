//! The table from each feature to its first root, and what a change of the roots changes in it.
ghost use Rattle.std.specs.Prelude.{◌≡◌, ◌≤◌, ◌&&◌, ℕ, List, Some, None, cond, not, is_some, length, drop, filter, vec_len, IfOk};
ghost use Rattle.std.specs.List.{list_any};
ghost use Rattle.std.specs.FinSet as set;
ghost use Rattle.std.specs.Option.{option_and_then};
ghost use Rattle.indexmap.specs.IndexMap.{spare};
ghost use Rattle.bs_outside.specs.Paths.{same_bytes};
ghost use Rattle.load_path_cache.specs.Index.{place_of, place_from, moved_place, raised, value_at};

use crate::TextSet;
use bs_outside::{NoMemory, Text};
use indexmap::IndexMap;
use std::alloc::Global;

/// The place of a root in the load path, counted from 0.
#[derive(Clone, Copy, Debug, PartialEq, Eq, Drop)]
pub struct Place {
    /// The place.
    pub root: usize,
}

/// A root of the load path with the features that its files are.
#[derive(Drop, Debug)]
pub struct IndexedRoot {
    /// The path of the root.
    pub path: Text,
    /// The files below it that end in `.rb`, by their paths relative to the root.
    pub files: TextSet,
}

impl IndexedRoot {
    /// A root with copies of these files.
    pub(crate) fn new(alloc: Global, path: &Text, files: &[Text]) -> Result<IndexedRoot, NoMemory>
        ensures { IfOk result (λ root. root ≡ record { path = path.now; files = set.from_list files.now }) }
    {
        Ok(IndexedRoot {
            path: path.copy(alloc)?,
            files: TextSet::from_texts(alloc, files)?,
        })
    }
}

/// Copies of the features that the table does not have.
pub(crate) fn unknown_features(
    alloc: Global,
    table: &IndexMap<Text, Place>,
    features: &[Text],
) -> Result<Vec<Text>, NoMemory>
    ensures { IfOk result (λ unknown. unknown.items ≡ filter (λ f. not (is_some (value_at table.now.entries f))) features.now) }
{
    let mut unknown = Vec::new(alloc);
    for feature in features {
        if !table.contains_key(feature) {
            unknown.push(feature.copy(alloc)?)?;
        }
    }
    Ok(unknown)
}

/// Gives each of these features the place, in room that was made before.
pub(crate) fn add_features(table: &mut IndexMap<Text, Place>, mut features: Vec<Text>, place: Place)
    requires { vec_len features ≤ spare table.old }
    ensures { (f : List ℕ) → value_at table.new.entries f ≡ cond (list_any (same_bytes f) features.items) (Some place) (value_at table.old.entries f) }
{
    while let Some(feature) = features.pop() {
        let Ok(_) = table.insert(feature, place) else {
            unreachable!();
        };
    }
}

/// Gives the feature the place if the table has it.
fn set_place(table: &mut IndexMap<Text, Place>, feature: &Text, place: Place)
    ensures set { (f : List ℕ) → value_at table.new.entries f ≡ cond (is_some (value_at table.old.entries feature.now) && same_bytes feature.now f) (Some place) (value_at table.old.entries f) }
    ensures room { spare table.old ≤ spare table.new }
{
    let Some(found) = table.get_mut(feature) else {
        return;
    };
    *found = place;
}

/// Gives those of these features that the table has the place.
pub(crate) fn set_places(table: &mut IndexMap<Text, Place>, features: &[Text], place: Place)
    ensures set { (f : List ℕ) → value_at table.new.entries f ≡ cond (list_any (same_bytes f) features.now && is_some (value_at table.old.entries f)) (Some place) (value_at table.old.entries f) }
    ensures room { spare table.old ≤ spare table.new }
{
    for feature in features {
        set_place(table, feature, place);
    }
}

/// Numbers the places anew behind one more root at the front.
pub(crate) fn shift_places(table: &mut IndexMap<Text, Place>)
    ensures shifted { (f : List ℕ) → value_at table.new.entries f ≡ option_and_then raised (value_at table.old.entries f) }
    ensures room { spare table.old ≤ spare table.new }
{
    let _count = table.len();
    table.retain(
        |_feature: &Text, place: &mut Place| -> bool
            ensures { cond result (Some place.new) None ≡ raised place.old }
        {
            place.root = place.root.saturating_add(1);
            true
        },
    );
}

/// The first root from a place on that has the feature.
fn next_place(roots: &[IndexedRoot], from: usize, feature: &Text) -> Option<Place>
    ensures { result ≡ place_from from (drop from roots.now) feature.now }
{
    for root in from..roots.len() {
        if roots[root].files.contains(feature) {
            return Some(Place { root });
        }
    }
    None
}

/// The place that a feature has after the root at the place `gone` was taken out of these roots, if it still has one.
fn moved_place(roots: &[IndexedRoot], gone: usize, feature: &Text, place: Place) -> Option<Place>
    ensures { result ≡ moved_place roots.now gone feature.now place }
{
    if place.root < gone {
        return Some(place);
    }
    if place.root == gone {
        return next_place(roots, gone, feature);
    }
    Some(Place {
        root: place.root - 1,
    })
}

/// Numbers the places anew after the root at the place `gone` was taken out of these roots.
pub(crate) fn forget_root(table: &mut IndexMap<Text, Place>, roots: &[IndexedRoot], gone: usize)
    ensures { (f : List ℕ) → value_at table.new.entries f ≡ option_and_then (moved_place roots.now gone f) (value_at table.old.entries f) }
{
    let _count = table.len();
    table.retain(
        |feature: &Text, place: &mut Place| -> bool
            ensures { cond result (Some place.new) None ≡ moved_place roots.entry.now gone feature.now place.old }
        {
            match moved_place(roots, gone, feature, *place) {
                Some(next) => {
                    *place = next;
                    true
                }
                None => false,
            }
        },
    );
}
