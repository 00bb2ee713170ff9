//! Words of the program, in and out of form.
use pf_words::{Said, WordsFault, read_words};
use std::alloc::Global;
use std::test::Fail;

// What these words say, told by a letter and the file or number.
fn told(alloc: Global, line: &str) -> Result<(char, usize), Fail> {
    let mut words = Vec::new(alloc);
    for word in line.split_whitespace() {
        words.push(String::from_str(alloc, word).map_err(|_| "no memory")?)?;
    }
    Ok(match read_words(alloc, words.as_slice()) {
        Ok(Said::Load(load)) => ('f', load.file.len()),
        Ok(Said::Script) => ('S', 0),
        Ok(Said::Generate(number)) => ('g', number as usize),
        Err(WordsFault::Words) => ('-', 0),
        Err(WordsFault::NoMemory) => ('m', 0),
    })
}

#[test]
fn words_in_and_out_of_form(rt: HostRuntime) -> Result<(), Fail> {
    for (line, answer) in [
        ("-f pf.conf", ('f', 7)),
        ("-fpf.conf -D a=b -H h -o none -a x -P p", ('f', 7)),
        ("-f=x", ('f', 1)),
        ("-f-x", ('f', 2)),
        ("-f -", ('f', 1)),
        ("-S", ('S', 0)),
        ("-S --", ('S', 0)),
        ("-g 1000", ('g', 1000)),
        ("-g1", ('g', 1)),
        ("-Sf x", ('-', 0)),
        ("-f x -S", ('-', 0)),
        ("-f x -f x", ('-', 0)),
        ("-S -S", ('-', 0)),
        ("-f x -D a=b -D c=d", ('-', 0)),
        ("-D a=b", ('-', 0)),
        ("-g 01", ('-', 0)),
        ("-g 0", ('-', 0)),
        ("-g 1001", ('-', 0)),
        ("-g 1 -H h", ('-', 0)),
        ("-f x y", ('-', 0)),
        ("-f x -- y", ('-', 0)),
        ("-f -S", ('-', 0)),
        ("-f=", ('-', 0)),
        ("-S=x", ('-', 0)),
        ("-h", ('-', 0)),
        ("--file x", ('-', 0)),
        ("-x", ('-', 0)),
        ("", ('-', 0)),
    ] {
        assert_eq!(rt; told(rt.alloc(), line)?, answer, "{line}");
    }
    Ok(())
}
