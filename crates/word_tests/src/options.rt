//! Words that clap, or a reader of options that is less strict, would take otherwise.
use pot_options::read_options;
use std::alloc::Global;
use std::test::Fail;

static NAMES: [&str; 2] = ["size", "form"];

// The values of `size` and `form` as one text, or `refused`.
fn values(alloc: Global, texts: &[&str]) -> Result<String, Fail> {
    let mut words: Vec<String> = Vec::new(alloc);
    for text in texts {
        words.push(String::from_str(alloc, text)?)?;
    }
    match read_options(alloc, NAMES.as_slice(), words.as_slice())? {
        Some(options) => {
            let size = options.value("size").unwrap_or("none");
            let form = options.value("form").unwrap_or("none");
            Ok(format!(in alloc; "{size} {form}")?)
        }
        None => Ok(String::from_str(alloc, "refused")?),
    }
}

#[test]
fn takes_options_in_both_forms_and_any_order(rt: HostRuntime) -> Result<(), Fail> {
    let alloc = rt.alloc();
    let rows: [(&[&str], &str); 9] = [
        (&[], "none none"),
        (&["--size", "5"], "5 none"),
        (&["--form=x"], "none x"),
        (&["--form", "x", "--size=5"], "5 x"),
        (&["--size=5", "--form", "x"], "5 x"),
        (&["--size="], " none"),
        (&["--size=a=b"], "a=b none"),
        (&["--size=--form", "--form=-h"], "--form -h"),
        (&["--size", "size", "--form", "\u{e4}"], "size \u{e4}"),
    ];
    for (words, wanted) in rows {
        assert_eq!(rt; values(alloc, words)?.as_str(), wanted);
    }
    Ok(())
}

#[test]
fn refuses_all_other_words(rt: HostRuntime) -> Result<(), Fail> {
    let alloc = rt.alloc();
    let rows: [&[&str]; 19] = [
        &["--"],
        &["--size=5", "--"],
        &["--size", "--"],
        &["--size"],
        &["--size=5", "--form"],
        &["--size=5", "--size=5"],
        &["--size", "5", "--size=6"],
        &["--size", "--form", "x"],
        &["--size", "-5"],
        &["--size", "5", "6"],
        &["5"],
        &[""],
        &["size=5"],
        &["-s", "5"],
        &["--siz=5"],
        &["--SIZE=5"],
        &["--=5"],
        &["--help"],
        &["-h"],
    ];
    for words in rows {
        assert_eq!(rt; values(alloc, words)?.as_str(), "refused");
    }
    Ok(())
}
