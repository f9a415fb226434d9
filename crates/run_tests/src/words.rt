//! Rows of words, with what they ask for.
use crate::outcomes::words_of;
use bootsnap_top::{PlanError, Planned, Usage, plan};
use compile_cache::CacheUse;
use std::test::Fail;

#[test]
fn the_first_bad_word_counts(rt: HostRuntime) -> Result<(), Fail> {
    let alloc = rt.alloc();
    for (line, place) in [
        // the first word
        ("", 1),
        ("walk", 1),
        ("Run m.rb", 1),
        ("--instrument run m.rb", 1),
        // a missing word
        ("run", 2),
        ("run --cache", 3),
        ("run --cache on", 4),
        ("run --instrument", 3),
        ("run --instrument --cache", 4),
        // the value of `--cache`
        ("run --cache x main.rb", 3),
        ("run --cache On main.rb", 3),
        ("run --cache on2 main.rb", 3),
        ("run --cache --instrument m.rb", 3),
        ("run --cache --cache on m.rb", 3),
        // an unknown option
        ("run --turns x main.rb", 2),
        ("run -", 2),
        ("run --cache=on m.rb", 2),
        ("run --instruments m.rb", 2),
        ("run --instrument -x m.rb", 3),
        // a repeated option
        ("run --cache on --cache off m.rb", 4),
        ("run --cache on --cache", 4),
        ("run --instrument --instrument m.rb", 3),
        ("run --instrument --cache on --instrument", 5),
        // FILE, which names nothing
        ("run a\0b", 2),
        ("run --instrument a\0b x", 3),
        // a word behind FILE
        ("run m.rb x", 3),
        ("run m.rb --instrument", 3),
        ("run --cache on --instrument m.rb --cache", 6),
    ] {
        match plan(alloc, &words_of(alloc, line)?) {
            Ok(_) => assert!(rt; false, "{line}"),
            Err(PlanError::Usage(Usage(bad))) => assert_eq!(rt; bad, place, "{line}"),
            Err(PlanError::NoMemory) => return Err(PlanError::NoMemory.into()),
        }
    }
    Ok(())
}

#[test]
fn options_stand_in_any_order(rt: HostRuntime) -> Result<(), Fail> {
    let alloc = rt.alloc();
    for (line, cache_use, noted, path) in [
        ("run m.rb", CacheUse::On, false, "/m.rb"),
        ("run /lib/../m.rb", CacheUse::On, false, "/m.rb"),
        ("run off", CacheUse::On, false, "/off"),
        ("run --cache on m.rb", CacheUse::On, false, "/m.rb"),
        ("run --cache off m.rb", CacheUse::Off, false, "/m.rb"),
        ("run --cache off on", CacheUse::Off, false, "/on"),
        ("run --instrument m.rb", CacheUse::On, true, "/m.rb"),
        (
            "run --cache off --instrument m.rb",
            CacheUse::Off,
            true,
            "/m.rb",
        ),
        (
            "run --instrument --cache off m.rb",
            CacheUse::Off,
            true,
            "/m.rb",
        ),
    ] {
        let Planned::Run {
            mode,
            instrument,
            file,
        } = plan(alloc, &words_of(alloc, line)?)?;
        assert_eq!(rt; mode.cache, cache_use, "{line}");
        assert_eq!(rt; instrument, noted, "{line}");
        assert!(rt; file.as_slice() == path.as_bytes(), "{line}");
    }
    Ok(())
}
