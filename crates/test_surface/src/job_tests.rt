//! The jobs that the words of a command line select.
use elsa_program::Job;
use elsa_program::command::job;
use std::test::*;

const BIG: Job = Job::Shared(16, 100_000);

#[test]
fn a_command_line_had_another_job(rt: HostRuntime) -> Result<(), Fail> {
    for (line, wanted) in [
        ("intern", Some(Job::Intern)),
        ("shared 2 1000", Some(Job::Shared(2, 1000))),
        ("shared 1 0", Some(Job::Shared(1, 0))),
        ("shared 16 100000", Some(BIG)),
        ("shared 0016 000000000000000000000100000", Some(BIG)),
        ("", None),
        ("Intern", None),
        ("intern 1", None),
        ("intern 2 3", None),
        ("shared", None),
        ("shared 2", None),
        ("shared 2 3 4", None),
        ("shared 0 5", None),
        ("shared 17 1", None),
        ("shared 1 100001", None),
        ("shared +1 5", None),
        ("shared 1 -0", None),
        ("shared 1 ", None),
        ("shared 1 5x", None),
        ("shared 18446744073709551617 1", None),
        ("shared 1 18446744073709551616", None),
    ] {
        let mut words = Vec::new(rt.alloc());
        for word in line.split(' ') {
            words.push(String::from_str(rt.alloc(), word)?)?;
        }
        assert_eq!(rt; job(words.as_slice()), wanted, "{line}");
    }
    assert_eq!(rt; job(&[]), None);
    Ok(())
}
