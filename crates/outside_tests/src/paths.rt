//! Paths that texts name.
use bs_outside::{Text, normal, parent};
use std::test::Fail;

// A base, a text, and the path that it names from there, or nothing.
#[test]
fn texts_name_paths(rt: HostRuntime) -> Result<(), Fail> {
    let rows: [(&[u8], &[u8], &[u8]); 17] = [
        (b"/", b"a.rb", b"/a.rb"),
        (b"/lib", b"a.rb", b"/lib/a.rb"),
        (b"/lib", b"/alt", b"/alt"),
        (b"/lib", b"../x", b"/x"),
        (b"/", b"../..", b"/"),
        (b"/lib", b"./a//b/", b"/lib/a/b"),
        (b"/lib", b".", b"/lib"),
        (b"/lib", b"", b"/lib"),
        (b"/a/b", b"..", b"/a"),
        (b"/a/b", b"c/../../d/...", b"/a/d/..."),
        (b"lib", b"a", b""),
        (b"lib", b"/a", b"/a"),
        (b"/lib/", b"a", b""),
        (b"/lib/../x", b"a", b""),
        (b"/", b"a\0b", b""),
        (b"/", b"a\xff", b""),
        (b"/", b"a\xff/../b", b"/b"),
    ];
    let alloc = rt.alloc();
    for (base, text, wanted) in rows {
        let path = normal(alloc, &Text::new(alloc, base)?, text)?;
        let named = match &path {
            Some(path) => path.as_slice(),
            None => b"",
        };
        assert!(rt; named == wanted);
    }
    Ok(())
}

#[test]
fn paths_have_a_limit(rt: HostRuntime) -> Result<(), Fail> {
    let alloc = rt.alloc();
    let root = Text::new(alloc, b"/")?;
    for (length, is_path) in [(1023, true), (1024, false)] {
        let text = vec![in alloc; b'a'; length]?;
        assert!(rt; normal(alloc, &root, &text)?.is_some() == is_path);
    }
    Ok(())
}

#[test]
fn paths_lie_in_folders(rt: HostRuntime) {
    let rows: [(&[u8], &[u8]); 3] = [(b"/a/b.rb", b"/a"), (b"/a", b"/"), (b"/", b"/")];
    for (path, folder) in rows {
        assert!(rt; parent(path) == folder);
    }
}
