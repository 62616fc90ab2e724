//! The command line.
ghost use Rattle.std.specs.Prelude.{◌≡◌, None, Some, MatchOption};
ghost use Rattle.birdcore_top.specs.Command.{asked_of_five, asked_of_four, asked_of_one, asked_of_three, asked_of_two, cells_in, command_asked, command_of, is_file, played_by};

use report::Form;

/// How many changes the journal of a table holds where nothing is said.
const USUAL_CELLS: u32 = 256;

/// How many it holds at most.
const MOST_CELLS: u32 = 4096;

/// What the words ask for, with the names of files.
#[derive(Clone, Copy, Debug)]
pub(crate) enum Asked<'a> {
    /// A script is to be played over a configuration. The journal of a table holds so many changes
    /// for the channels that are still to take them; the report is written in this form.
    Play {
        conf: &'a str,
        script: &'a str,
        cells: u32,
        form: Form,
    },
    /// The same, but for what a script may say, and what is written.
    Run {
        conf: &'a str,
        script: &'a str,
        cells: u32,
        form: Form,
    },
    /// A configuration is to be checked.
    CheckOne {
        conf: &'a str,
    },
    /// A configuration is to be checked, and a script over it.
    CheckBoth {
        conf: &'a str,
        script: &'a str,
    },
}

/// What the words ask for: `check CONF`, `check CONF SCRIPT`, `play CONF SCRIPT` or `run CONF
/// SCRIPT`, of these two perhaps with `--journal N` behind it, and perhaps with `-q` as the last
/// word.
pub(crate) fn asked_by(words: &[String]) -> Option<Asked<'_>>
    ensures { MatchOption result (command_of words.now ≡ None)
        (λ asked. command_of words.now ≡ Some (command_asked asked)) }
{
    match words {
        [command, conf] => of_one(command.as_str(), conf.as_str()),
        [command, conf, script] => of_two(command.as_str(), conf.as_str(), script.as_str()),
        [command, conf, script, last] => of_three(
            command.as_str(),
            conf.as_str(),
            script.as_str(),
            last.as_str(),
        ),
        [command, conf, script, option, number] => of_four(
            command.as_str(),
            conf.as_str(),
            script.as_str(),
            option.as_str(),
            number.as_str(),
        ),
        [command, conf, script, option, number, last] => of_five(
            command.as_str(),
            conf.as_str(),
            script.as_str(),
            option.as_str(),
            number.as_str(),
            last.as_str(),
        ),
        _ => None,
    }
}

/// What is asked for by one word behind the first.
fn of_one<'a>(command: &str, conf: &'a str) -> Option<Asked<'a>>
    ensures { MatchOption result (asked_of_one command.now conf.now ≡ None)
        (λ asked. asked_of_one command.now conf.now ≡ Some (command_asked asked)) }
{
    if command == "check" && is_file(conf) {
        Some(Asked::CheckOne { conf })
    } else {
        None
    }
}

/// What is asked for by two words behind the first.
fn of_two<'a>(command: &str, conf: &'a str, script: &'a str) -> Option<Asked<'a>>
    ensures { MatchOption result (asked_of_two command.now conf.now script.now ≡ None)
        (λ asked. asked_of_two command.now conf.now script.now ≡ Some (command_asked asked)) }
{
    if !(is_file(conf) && is_file(script)) {
        None
    } else if command == "check" {
        Some(Asked::CheckBoth { conf, script })
    } else {
        played_by(command, conf, script, USUAL_CELLS, Form::Whole)
    }
}

/// What is asked for by three words behind the first.
fn of_three<'a>(command: &str, conf: &'a str, script: &'a str, last: &str) -> Option<Asked<'a>>
    ensures { MatchOption result (asked_of_three command.now conf.now script.now last.now ≡ None)
        (λ asked. asked_of_three command.now conf.now script.now last.now
        ≡ Some (command_asked asked)) }
{
    if last == "-q" && is_file(conf) && is_file(script) {
        played_by(command, conf, script, USUAL_CELLS, Form::Quiet)
    } else {
        None
    }
}

/// What is asked for by four words behind the first.
fn of_four<'a>(
    command: &str,
    conf: &'a str,
    script: &'a str,
    option: &str,
    number: &str,
) -> Option<Asked<'a>>
    ensures { MatchOption result
        (asked_of_four command.now conf.now script.now option.now number.now ≡ None)
        (λ asked. asked_of_four command.now conf.now script.now option.now number.now
        ≡ Some (command_asked asked)) }
{
    if option == "--journal" && is_file(conf) && is_file(script) {
        played_by(command, conf, script, cells_of(number)?, Form::Whole)
    } else {
        None
    }
}

/// What is asked for by five words behind the first.
fn of_five<'a>(
    command: &str,
    conf: &'a str,
    script: &'a str,
    option: &str,
    number: &str,
    last: &str,
) -> Option<Asked<'a>>
    ensures { MatchOption result
        (asked_of_five command.now conf.now script.now option.now number.now last.now ≡ None)
        (λ asked. asked_of_five command.now conf.now script.now option.now number.now last.now
        ≡ Some (command_asked asked)) }
{
    let is_quiet = option == "--journal" && last == "-q";
    if is_quiet && is_file(conf) && is_file(script) {
        played_by(command, conf, script, cells_of(number)?, Form::Quiet)
    } else {
        None
    }
}

/// What is asked for by the name of a command that writes reports.
fn played_by<'a>(
    command: &str,
    conf: &'a str,
    script: &'a str,
    cells: u32,
    form: Form,
) -> Option<Asked<'a>>
    ensures { MatchOption result (played_by command.now conf.now script.now cells form ≡ None)
        (λ asked. played_by command.now conf.now script.now cells form
        ≡ Some (command_asked asked)) }
{
    if command == "play" {
        Some(Asked::Play {
            conf,
            script,
            cells,
            form,
        })
    } else if command == "run" {
        Some(Asked::Run {
            conf,
            script,
            cells,
            form,
        })
    } else {
        None
    }
}

/// Whether the word is the name of a file: one that a minus sign begins is an option, but for that
/// sign alone.
fn is_file(word: &str) -> bool
    ensures { result ≡ is_file word.now }
{
    let bytes = word.as_bytes();
    match bytes.first() {
        Some(first) => bytes.len() < 2 || *first != b'-',
        None => true,
    }
}

/// How many changes a journal is to hold, where the word is a number from 1 to the most.
fn cells_of(word: &str) -> Option<u32>
    ensures { result ≡ cells_in word.now }
{
    let number = word.parse::<u32>().ok()?;
    if 1 <= number && number <= MOST_CELLS {
        Some(number)
    } else {
        None
    }
}
