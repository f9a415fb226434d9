//! The index of the load path.
use bs_outside::{Items, NoMemory, Text, Texts};
use load_path_cache::{LoadIndex, RootScan};
use std::alloc::Global;
use std::test::Fail;

fn text(alloc: Global, path: &str) -> Result<Text, NoMemory> {
    Text::new(alloc, path.as_bytes())
}

fn scan(alloc: Global, names: &[&str]) -> Result<RootScan, NoMemory> {
    let mut files: Texts = Items::new(alloc);
    for name in names {
        files.push(text(alloc, name)?)?;
    }
    Ok(RootScan {
        latest: Some(1),
        files,
        dirs: Items::new(alloc),
    })
}

// The place of the feature's first root, and nothing for a feature of no root.
fn found(index: &LoadIndex, alloc: Global, feature: &str) -> Result<Option<usize>, NoMemory> {
    let found = index.find(&text(alloc, feature)?);
    Ok(found.map(|place| place.root))
}

#[test]
fn the_first_root_is_found(rt: HostRuntime) -> Result<(), Fail> {
    let alloc = rt.alloc();
    let mut index = LoadIndex::new(alloc);
    assert!(rt; index.is_empty());
    index.push(
        alloc,
        &text(alloc, "/lib")?,
        &scan(alloc, &["a.rb", "b.rb"])?,
    )?;
    index.unshift(alloc, &text(alloc, "/alt")?, &scan(alloc, &["a.rb"])?)?;
    assert_eq!(rt; index.table().len(), 2);
    assert_eq!(rt; found(&index, alloc, "a.rb")?, Some(0));
    assert_eq!(rt; found(&index, alloc, "b.rb")?, Some(1));
    assert_eq!(rt; found(&index, alloc, "c.rb")?, None);
    assert_eq!(rt; index.len(), 2);
    assert!(rt; *index.root(0) == text(alloc, "/alt")?);
    Ok(())
}

#[test]
fn a_root_that_goes_leaves_its_features_to_the_next(rt: HostRuntime) -> Result<(), Fail> {
    let alloc = rt.alloc();
    let mut index = LoadIndex::new(alloc);
    index.push(
        alloc,
        &text(alloc, "/lib")?,
        &scan(alloc, &["a.rb", "b.rb"])?,
    )?;
    index.unshift(alloc, &text(alloc, "/alt")?, &scan(alloc, &["a.rb"])?)?;
    index.delete(&text(alloc, "/alt")?);
    assert_eq!(rt; index.table().len(), 2);
    assert_eq!(rt; found(&index, alloc, "a.rb")?, Some(0));
    assert_eq!(rt; found(&index, alloc, "b.rb")?, Some(0));
    Ok(())
}

#[test]
fn all_equal_roots_go(rt: HostRuntime) -> Result<(), Fail> {
    let alloc = rt.alloc();
    let mut index = LoadIndex::new(alloc);
    let files = scan(alloc, &["a.rb", "b.rb"])?;
    index.push(alloc, &text(alloc, "/lib")?, &files)?;
    index.push(alloc, &text(alloc, "/lib")?, &files)?;
    index.delete(&text(alloc, "/lib")?);
    assert!(rt; index.table().is_empty());
    assert_eq!(rt; found(&index, alloc, "a.rb")?, None);
    Ok(())
}
