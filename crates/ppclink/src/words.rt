// The words of a command.
ghost use Rattle.std.specs.Prelude.{◌≡◌, true, IfSome, string_bytes};
ghost use Rattle.std.specs.List.{list_all};
ghost use Rattle.std.specs.Option.{option_map};
ghost use Rattle.link_engine.specs.Options.{InRange};
ghost use Rattle.ppclink.specs.Requests.{request_of, request_behind, link_request, link_files, link_options_in, link_with_branch, link_with_toc, link_words, option_in, branch_span_of, toc_span_of, is_branch_span, is_toc_span, are_files, show_request, run_request, run_of, run_options_in, run_with_input, run_words, check_request, texts, is_file_name};
ghost use Rattle.ppclink.specs.inside.Commands.{meaning, valued, link_options, run_options, link_parts, run_parts, IsAllowed};

use crate::numbers::number_of;
use link_engine::{BRANCH_SPAN, TOC_SPAN};

/// How many steps a run takes at most where the words don't say.
const USUAL_BUDGET: u32 = 1_000_000;

/// The name of the entry where the words don't say.
const USUAL_ENTRY: &str = "_start";

/// How many files a link takes at most.
const FILE_COUNT_LIMIT: usize = 4096;

/// The options of a link.
#[derive(Clone, Copy, Debug)]
pub struct LinkOptions<'a> {
    /// The name of the symbol where the executable is entered.
    pub entry: &'a str,
    /// How far a branch reaches, in bytes either way.
    pub branch_span: u32,
    /// How large a TOC group may grow, in bytes.
    pub toc_span: u32,
}

/// The options of a run.
#[derive(Clone, Copy, Debug)]
pub struct RunOptions<'a> {
    /// The name of the file that the run reads, if there is one.
    pub input: Option<&'a str>,
    /// How many steps it may take.
    pub budget: u32,
}

/// A command whose words were understood.
#[derive(Clone, Copy, Debug)]
pub enum Command<'a> {
    /// Links the files and writes the executable.
    Link {
        /// The name of the executable.
        out: &'a str,
        /// The options.
        options: LinkOptions<'a>,
        /// The names of the object files, of which there are 1 to 4096.
        files: &'a [String],
    },
    /// Runs the files without an image.
    Check {
        /// The options of their link.
        options: LinkOptions<'a>,
        /// The options of the run.
        run: RunOptions<'a>,
        /// The names of the object files, of which there are 1 to 4096.
        files: &'a [String],
    },
    /// Shows an object file.
    Show {
        /// The name of the file.
        file: &'a String,
    },
    /// Runs an executable.
    Run {
        /// The options.
        options: RunOptions<'a>,
        /// The name of the executable.
        image: &'a str,
    },
}

// Whether a word may name a file: it isn't empty and doesn't begin with `-`.
fn is_file_name(word: &str) -> bool
    ensures { result ≡ is_file_name word.now }
{
    match word.as_bytes() {
        [] => false,
        [first, ..] => *first != b'-',
    }
}

// Whether each word may name a file.
fn are_file_names(words: &[String]) -> bool
    ensures { result ≡ list_all (λ word. is_file_name (string_bytes word)) words.now }
{
    words.iter().all(|word| is_file_name(word.as_str()))
}

// Whether words name 1 to 4096 files.
fn are_files(words: &[String]) -> bool
    ensures { result ≡ are_files (texts words.now) }
{
    let count = words.len();
    count != 0 && count <= FILE_COUNT_LIMIT && are_file_names(words)
}

// The branch span that a word writes, if it is one that is allowed.
fn branch_span_of(word: &str) -> Option<u32>
    ensures span { result ≡ branch_span_of word.now }
    ensures allowed { IfSome result (λ n. is_branch_span n ≡ true) }
{
    let span = number_of(word)?;
    if span % 4 == 0 && 0x100 <= span && span <= BRANCH_SPAN {
        Some(span)
    } else {
        None
    }
}

// The TOC span that a word writes, if it is one that is allowed.
fn toc_span_of(word: &str) -> Option<u32>
    ensures span { result ≡ toc_span_of word.now }
    ensures allowed { IfSome result (λ n. is_toc_span n ≡ true) }
{
    let span = number_of(word)?;
    if span % 8 == 0 && 16 <= span && span <= TOC_SPAN {
        Some(span)
    } else {
        None
    }
}

// An option's value, and the words behind it.
#[derive(Clone, Copy)]
struct OptionValue<'a> {
    value: &'a str,
    rest: &'a [String],
}

// The option of this name at the front of words, if it is there with a value.
#[tactic(auto, unfolding(crate::specs::Requests::option_in))]
fn option_in<'a>(name: &str, words: &'a [String]) -> Option<OptionValue<'a>>
    ensures { option_map valued result ≡ option_in name.now (texts words.now) }
{
    match words {
        [option, value, rest @ ..] if option.as_str() == name => Some(OptionValue {
            value: value.as_str(),
            rest,
        }),
        _ => None,
    }
}

/// The options of a link, and the words behind them.
#[derive(Clone, Copy)]
struct LinkWords<'a> {
    options: LinkOptions<'a>,
    rest: &'a [String],
}

// The options of a link with these spans; None stands for a number that isn't allowed.
#[tactic(auto, unfolding(crate::specs::Requests::link_words))]
fn link_words<'a>(
    entry: &'a str,
    branch: Option<u32>,
    toc: Option<u32>,
    rest: &'a [String],
) -> Option<LinkWords<'a>>
    requires branch { IfSome branch (λ n. is_branch_span n ≡ true) }
    requires toc { IfSome toc (λ n. is_toc_span n ≡ true) }
    ensures value { option_map link_parts result
        ≡ link_words entry.now branch toc (texts rest.now) }
    ensures allowed { IfSome result (λ w. InRange (link_options w.options)) }
{
    let options = LinkOptions {
        entry,
        branch_span: branch?,
        toc_span: toc?,
    };
    Some(LinkWords { options, rest })
}

// The options of a link behind its branch span.
#[tactic(auto, unfolding(crate::specs::Requests::link_with_toc))]
fn parse_toc<'a>(entry: &'a str, branch: Option<u32>, words: &'a [String]) -> Option<LinkWords<'a>>
    requires { IfSome branch (λ n. is_branch_span n ≡ true) }
    ensures value { option_map link_parts result
        ≡ link_with_toc entry.now branch (texts words.now) }
    ensures allowed { IfSome result (λ w. InRange (link_options w.options)) }
{
    match option_in("--toc-span", words) {
        Some(option) => link_words(entry, branch, toc_span_of(option.value), option.rest),
        None => link_words(entry, branch, Some(TOC_SPAN), words),
    }
}

// The options of a link behind its entry.
#[tactic(auto, unfolding(crate::specs::Requests::link_with_branch))]
fn parse_branch<'a>(entry: &'a str, words: &'a [String]) -> Option<LinkWords<'a>>
    ensures value { option_map link_parts result ≡ link_with_branch entry.now (texts words.now) }
    ensures allowed { IfSome result (λ w. InRange (link_options w.options)) }
{
    match option_in("--branch-span", words) {
        Some(option) => parse_toc(entry, branch_span_of(option.value), option.rest),
        None => parse_toc(entry, Some(BRANCH_SPAN), words),
    }
}

// The options of a link at the front of words.
fn parse_link_options(words: &[String]) -> Option<LinkWords<'_>>
    ensures value { option_map link_parts result ≡ link_options_in (texts words.now) }
    ensures allowed { IfSome result (λ w. InRange (link_options w.options)) }
{
    match words {
        [option, entry, rest @ ..] if option.as_str() == "-e" => {
            if entry.is_empty() {
                None
            } else {
                parse_branch(entry.as_str(), rest)
            }
        }
        _ => parse_branch(USUAL_ENTRY, words),
    }
}

// The words of a link behind the name of the executable.
fn parse_files<'a>(out: &'a str, words: &'a [String]) -> Option<Command<'a>>
    ensures value { option_map meaning result
        ≡ link_files out.now (link_options_in (texts words.now)) }
    ensures allowed { IfSome result IsAllowed }
{
    let LinkWords { options, rest } = parse_link_options(words)?;
    if are_files(rest) {
        Some(Command::Link {
            out,
            options,
            files: rest,
        })
    } else {
        None
    }
}

// The words behind `link`.
fn parse_link(words: &[String]) -> Option<Command<'_>>
    ensures value { option_map meaning result ≡ link_request (texts words.now) }
    ensures allowed { IfSome result IsAllowed }
{
    match words {
        [option, out, rest @ ..] if option.as_str() == "-o" && is_file_name(out.as_str()) => {
            parse_files(out.as_str(), rest)
        }
        _ => None,
    }
}

// The words behind `show`.
fn parse_show(words: &[String]) -> Option<Command<'_>>
    ensures value { option_map meaning result ≡ show_request (texts words.now) }
    ensures allowed { IfSome result IsAllowed }
{
    match words {
        [file] if is_file_name(file.as_str()) => Some(Command::Show { file }),
        _ => None,
    }
}

/// The options of a run, and the words behind them.
#[derive(Clone, Copy)]
struct RunWords<'a> {
    options: RunOptions<'a>,
    rest: &'a [String],
}

// The options of a run with these values; None stands for a number that isn't allowed.
#[tactic(auto, unfolding(crate::specs::Requests::run_words))]
fn run_words<'a>(
    budget: Option<u32>,
    input: Option<&'a str>,
    rest: &'a [String],
) -> Option<RunWords<'a>>
    ensures { option_map run_parts result
        ≡ run_words budget (option_map (λ i. i.now) input.entry) (texts rest.now) }
{
    let options = RunOptions {
        input,
        budget: budget?,
    };
    Some(RunWords { options, rest })
}

// The options of a run behind the number of steps.
#[tactic(auto, unfolding(crate::specs::Requests::run_with_input))]
fn parse_input(budget: Option<u32>, words: &[String]) -> Option<RunWords<'_>>
    ensures { option_map run_parts result ≡ run_with_input budget (texts words.now) }
{
    match words {
        [option, input, rest @ ..] if option.as_str() == "-i" => {
            if is_file_name(input.as_str()) {
                run_words(budget, Some(input.as_str()), rest)
            } else {
                None
            }
        }
        _ => run_words(budget, None, words),
    }
}

// The options of a run at the front of words.
fn parse_run_options(words: &[String]) -> Option<RunWords<'_>>
    ensures { option_map run_parts result ≡ run_options_in (texts words.now) }
{
    match words {
        [option, number, rest @ ..] if option.as_str() == "-n" => {
            parse_input(number_of(number.as_str()), rest)
        }
        _ => parse_input(Some(USUAL_BUDGET), words),
    }
}

// The words of a run behind its options.
fn run_of<'a>(options: RunOptions<'a>, rest: &'a [String]) -> Option<Command<'a>>
    ensures value { option_map meaning result ≡ run_of (run_options options.entry) (texts rest.now) }
    ensures allowed { IfSome result IsAllowed }
{
    match rest {
        [image] if is_file_name(image.as_str()) => Some(Command::Run {
            options,
            image: image.as_str(),
        }),
        _ => None,
    }
}

// The words behind `run`.
fn parse_run(words: &[String]) -> Option<Command<'_>>
    ensures value { option_map meaning result ≡ run_request (texts words.now) }
    ensures allowed { IfSome result IsAllowed }
{
    let RunWords { options, rest } = parse_run_options(words)?;
    run_of(options, rest)
}

// The words behind `check`.
fn parse_check(words: &[String]) -> Option<Command<'_>>
    ensures value { option_map meaning result ≡ check_request (texts words.now) }
    ensures allowed { IfSome result IsAllowed }
{
    let link = parse_link_options(words)?;
    let run = parse_run_options(link.rest)?;
    if are_files(run.rest) {
        Some(Command::Check {
            options: link.options,
            run: run.options,
            files: run.rest,
        })
    } else {
        None
    }
}

// The words behind a command.
fn parse_behind<'a>(command: &str, words: &'a [String]) -> Option<Command<'a>>
    ensures value { option_map meaning result ≡ request_behind command.now (texts words.now) }
    ensures allowed { IfSome result IsAllowed }
{
    match command {
        "link" => parse_link(words),
        "show" => parse_show(words),
        "run" => parse_run(words),
        "check" => parse_check(words),
        _ => None,
    }
}

/// Reads the words; None exactly where they aren't of the grammar.
pub fn parse(words: &[String]) -> Option<Command<'_>>
    ensures value { option_map meaning result ≡ request_of (texts words.now) }
    ensures allowed { IfSome result IsAllowed }
{
    let [command, rest @ ..] = words else {
        return None;
    };
    parse_behind(command.as_str(), rest)
}
