//! From the words of a command line to what is asked.
ghost use Rattle.std.specs.Prelude.{◌≡◌, ◌≢◌, ◌<◌, ◌≤◌, IfOk, IsErrOf, map, codes, false, Some};
ghost use Rattle.clap.specs.Walk.{rule_of};
ghost use Rattle.clap.specs.Words.{app_of, found_of, kind_of, rows_of};
ghost use Rattle.bg_cli.specs.declared.line.LineError.TheVariants.{Memory};
ghost use Rattle.bg_cli.specs.Cli.{cli, verify, annotate, certify, check, makes, workers, budget, cert, files, texts_of, IsTaken, files_in, workers_in, nodes_in, most_rows_in, files_of, workers_of, as_workers, nodes_of, most_rows_of, flag, flag_of, guess_of, history_of, guess_in, history_in, rows_for, job_named, job_for, job_in, cert_of, cert_in, seed, size, seed_of, size_of, seed_in, size_in};

use crate::job::Job;
use clap::error::ErrorKind;
use clap::{Arg, ArgAction, ArgMatches, Command, Error, value_parser};
use std::alloc::{AllocError, Global};

/// How many nodes of a certificate's tree may count, where the words say nothing of it.
pub const NODES: u32 = 20_000;

/// The most rows of an elimination, where the words say nothing of it.
pub const ROWS: u32 = 20_000;

/// How many workers check places of candidates, where the words say nothing of it.
pub const WORKERS: u32 = 4;

/// What a command line asks: the job; the file of the certificate that is checked, or the empty text; the files in order, how many
/// workers check places of candidates, how many nodes of a certificate's tree may count, and the most rows that an elimination keeps;
/// whether the program is judged with its guesses; whether the history of the candidates that went is asked for; and the seed and the
/// size of a program that is made.
#[derive(Drop)]
pub struct Line<'a> {
    pub job: Job,
    pub cert: &'a str,
    pub files: Vec<&'a str>,
    pub workers: u32,
    pub nodes: u32,
    pub rows: u32,
    pub guess: bool,
    pub history: bool,
    pub seed: u64,
    pub size: u32,
}

/// Why nothing is asked.
#[derive(Drop)]
pub enum LineError {
    /// The words aren't taken.
    Usage,
    /// Memory ran out.
    Memory,
}

/// An option with a number from 1 to 1,000,000, which is 20,000 where it isn't given.
fn budget<'a>(alloc: Global, name: &'a str) -> Arg<'a>
    ensures rule { rule_of result ≡ budget name.now }
    ensures own { result.global ≡ false }
{
    Arg::new(alloc, name)
        .long(name)
        .value_parser(value_parser!(u32).range(1..=1_000_000))
        .action(ArgAction::Set)
        .default_value("20000")
}

/// The option `--workers` with a number from 1 to 16, which is 4 where it isn't given.
fn workers<'a>(alloc: Global) -> Arg<'a>
    ensures rule { rule_of result ≡ workers }
    ensures own { result.global ≡ false }
{
    Arg::new(alloc, "workers")
        .long("workers")
        .value_parser(value_parser!(u32).range(1..=16))
        .action(ArgAction::Set)
        .default_value("4")
}

/// A flag.
fn flag<'a>(alloc: Global, name: &'a str) -> Arg<'a>
    ensures rule { rule_of result ≡ flag name.now }
    ensures own { result.global ≡ false }
{
    Arg::new(alloc, name).long(name).action(ArgAction::SetTrue)
}

/// The files, of which there is one at least.
fn files<'a>(alloc: Global) -> Arg<'a>
    ensures rule { rule_of result ≡ files }
    ensures own { result.global ≡ false }
{
    Arg::new(alloc, "FILE")
        .required(true)
        .num_args(1..)
        .action(ArgAction::Append)
}

/// The seed of a program that is made.
fn seed<'a>(alloc: Global) -> Arg<'a>
    ensures rule { rule_of result ≡ seed }
    ensures own { result.global ≡ false }
{
    Arg::new(alloc, "SEED")
        .required(true)
        .value_parser(value_parser!(u32))
        .action(ArgAction::Set)
}

/// The size of a program that is made.
fn size<'a>(alloc: Global) -> Arg<'a>
    ensures rule { rule_of result ≡ size }
    ensures own { result.global ≡ false }
{
    Arg::new(alloc, "SIZE")
        .required(true)
        .value_parser(value_parser!(u32).range(1..=1_000))
        .action(ArgAction::Set)
}

/// The file of the certificate that is checked.
fn cert<'a>(alloc: Global) -> Arg<'a>
    ensures rule { rule_of result ≡ cert }
    ensures own { result.global ≡ false }
{
    Arg::new(alloc, "cert")
        .long("cert")
        .required(true)
        .action(ArgAction::Set)
}

/// `bg verify [--workers N] [--nodes N] [--rows N] [--guess] [--history] FILE..`.
fn verify<'a>(alloc: Global) -> Result<Command<'a>, AllocError>
    ensures { IfOk result (λ c. app_of c ≡ verify) }
{
    Command::new(alloc, "verify")
        .arg(workers(alloc))?
        .arg(budget(alloc, "nodes"))?
        .arg(budget(alloc, "rows"))?
        .arg(flag(alloc, "guess"))?
        .arg(flag(alloc, "history"))?
        .arg(files(alloc))
}

/// `bg annotate [--workers N] [--nodes N] [--rows N] [--guess] FILE..`.
fn annotate<'a>(alloc: Global) -> Result<Command<'a>, AllocError>
    ensures { IfOk result (λ c. app_of c ≡ annotate) }
{
    Command::new(alloc, "annotate")
        .arg(workers(alloc))?
        .arg(budget(alloc, "nodes"))?
        .arg(budget(alloc, "rows"))?
        .arg(flag(alloc, "guess"))?
        .arg(files(alloc))
}

/// `bg certify [--workers N] [--nodes N] [--rows N] FILE..`.
fn certify<'a>(alloc: Global) -> Result<Command<'a>, AllocError>
    ensures { IfOk result (λ c. app_of c ≡ certify) }
{
    Command::new(alloc, "certify")
        .arg(workers(alloc))?
        .arg(budget(alloc, "nodes"))?
        .arg(budget(alloc, "rows"))?
        .arg(files(alloc))
}

/// `bg check --cert FILE FILE..`.
fn check<'a>(alloc: Global) -> Result<Command<'a>, AllocError>
    ensures { IfOk result (λ c. app_of c ≡ check) }
{
    Command::new(alloc, "check")
        .arg(cert(alloc))?
        .arg(files(alloc))
}

/// A command that takes a seed and a size: `bg generate SEED SIZE`, `bg bench SEED SIZE`.
fn makes<'a>(alloc: Global, name: &'a str) -> Result<Command<'a>, AllocError>
    ensures { IfOk result (λ c. app_of c ≡ makes name.now) }
{
    Command::new(alloc, name).arg(seed(alloc))?.arg(size(alloc))
}

/// The commands `bg verify`, `bg annotate`, `bg certify`, `bg check`, `bg generate` and `bg bench`.
pub fn cli<'a>(alloc: Global) -> Result<Command<'a>, AllocError>
    ensures { IfOk result (λ c. app_of c ≡ cli) }
{
    Command::new(alloc, "bg")
        .subcommand_required(true)
        .subcommand(verify(alloc)?)?
        .subcommand(annotate(alloc)?)?
        .subcommand(certify(alloc)?)?
        .subcommand(check(alloc)?)?
        .subcommand(makes(alloc, "generate")?)?
        .subcommand(makes(alloc, "bench")?)
}

/// Why a parse failed.
fn fault_of(error: &Error) -> LineError
    ensures { result ≡ LineError.Usage → kind_of error.now ≢ ErrorKind.OutOfMemory }
{
    if error.kind() == ErrorKind::OutOfMemory {
        LineError::Memory
    } else {
        LineError::Usage
    }
}

/// The files that the matches of the command hold.
fn files_of<'a>(alloc: Global, verify: &ArgMatches<'a>) -> Result<Vec<&'a str>, AllocError>
    ensures { IfOk result (λ files. map (λ file. file.now) files.items ≡ files_of (rows_of (found_of verify.now))) }
{
    match verify.get_strs("FILE") {
        Some(files) => files.to_vec(alloc),
        None => Ok(Vec::new(alloc)),
    }
}

/// The number of nodes that the matches of the command hold.
fn nodes_of(verify: &ArgMatches<'_>) -> u32
    ensures { result ≡ nodes_of (rows_of (found_of verify.now)) }
{
    verify.get_one::<u32>("nodes").unwrap_or(NODES)
}

/// The number of rows that the matches of the command hold.
fn most_rows_of(verify: &ArgMatches<'_>) -> u32
    ensures { result ≡ most_rows_of (rows_of (found_of verify.now)) }
{
    verify.get_one::<u32>("rows").unwrap_or(ROWS)
}

/// A number of workers: one from 1 to 16 as it is, another one as the usual one.
fn as_workers(n: u32) -> u32
    ensures is { result ≡ as_workers n }
    ensures some { (0 < result) × (result ≤ 16) }
{
    if 1 <= n && n <= 16 { n } else { WORKERS }
}

/// The number of workers that the matches of the command hold.
fn workers_of(verify: &ArgMatches<'_>) -> u32
    ensures is { result ≡ workers_of (rows_of (found_of verify.now)) }
    ensures some { (0 < result) × (result ≤ 16) }
{
    as_workers(verify.get_one::<u32>("workers").unwrap_or(WORKERS))
}

/// Whether the matches of the command have a flag.
fn flag_of(verify: &ArgMatches<'_>, name: &str) -> bool
    ensures { result ≡ flag_of name.now (rows_of (found_of verify.now)) }
{
    verify.get_one::<bool>(name).unwrap_or(false)
}

/// The job of the command of this name.
fn job_named(name: &str) -> Job
    ensures { result ≡ job_named name.now }
{
    if name == "annotate" {
        Job::Annotate
    } else if name == "certify" {
        Job::Certify
    } else if name == "check" {
        Job::Check
    } else if name == "generate" {
        Job::Generate
    } else if name == "bench" {
        Job::Bench
    } else {
        Job::Verify
    }
}

/// The certificate's file that the matches of the command hold.
fn cert_of<'a>(check: &ArgMatches<'a>) -> &'a str
    ensures { result.now ≡ cert_of (rows_of (found_of check.now)) }
{
    check.get_str("cert").unwrap_or("")
}

/// The seed that the matches of the command hold.
fn seed_of(generate: &ArgMatches<'_>) -> u64
    ensures { result ≡ seed_of (rows_of (found_of generate.now)) }
{
    u64::from(generate.get_one::<u32>("SEED").unwrap_or(0))
}

/// The size that the matches of the command hold.
fn size_of(generate: &ArgMatches<'_>) -> u32
    ensures { result ≡ size_of (rows_of (found_of generate.now)) }
{
    generate.get_one::<u32>("SIZE").unwrap_or(0)
}

/// What the matches ask.
fn line_of<'a>(alloc: Global, matches: &ArgMatches<'a>) -> Result<Line<'a>, AllocError>
    ensures job { IfOk result (λ line. line.job ≡ job_for matches.now) }
    ensures cert { IfOk result (λ line. line.cert.now ≡ cert_of (rows_for matches.now)) }
    ensures files { IfOk result (λ line. map (λ file. file.now) line.files.items ≡ files_of (rows_for matches.now)) }
    ensures workers { IfOk result (λ line. line.workers ≡ workers_of (rows_for matches.now)) }
    ensures some { IfOk result (λ line. (0 < line.workers) × (line.workers ≤ 16)) }
    ensures nodes { IfOk result (λ line. line.nodes ≡ nodes_of (rows_for matches.now)) }
    ensures rows { IfOk result (λ line. line.rows ≡ most_rows_of (rows_for matches.now)) }
    ensures guess { IfOk result (λ line. line.guess ≡ guess_of (rows_for matches.now)) }
    ensures history { IfOk result (λ line. line.history ≡ history_of (rows_for matches.now)) }
    ensures seed { IfOk result (λ line. line.seed ≡ seed_of (rows_for matches.now)) }
    ensures size { IfOk result (λ line. line.size ≡ size_of (rows_for matches.now)) }
{
    let Some((name, found)) = matches.subcommand() else {
        return Ok(Line {
            job: Job::Verify,
            cert: "",
            files: Vec::new(alloc),
            workers: WORKERS,
            nodes: NODES,
            rows: ROWS,
            guess: false,
            history: false,
            seed: 0,
            size: 0,
        });
    };
    Ok(Line {
        job: job_named(name),
        cert: cert_of(found),
        files: files_of(alloc, found)?,
        workers: workers_of(found),
        nodes: nodes_of(found),
        rows: most_rows_of(found),
        guess: flag_of(found, "guess"),
        history: flag_of(found, "history"),
        seed: seed_of(found),
        size: size_of(found),
    })
}

/// What the words of a command line ask; the first word is the program's own name.
///
/// # Errors
/// `Usage` where the words aren't taken, and `Memory` where memory ran out.
pub fn read_line<'a>(alloc: Global, words: &'a [String]) -> Result<Line<'a>, LineError>
    ensures taken { IfOk result (λ line. IsTaken (texts_of words.now)) }
    ensures job { IfOk result (λ line. line.job ≡ job_in (texts_of words.now)) }
    ensures cert { IfOk result (λ line. line.cert.now ≡ cert_in (texts_of words.now)) }
    ensures files { IfOk result (λ line. map (λ file. file.now) line.files.items ≡ files_in (texts_of words.now)) }
    ensures workers { IfOk result (λ line. line.workers ≡ workers_in (texts_of words.now)) }
    ensures some { IfOk result (λ line. (0 < line.workers) × (line.workers ≤ 16)) }
    ensures nodes { IfOk result (λ line. line.nodes ≡ nodes_in (texts_of words.now)) }
    ensures rows { IfOk result (λ line. line.rows ≡ most_rows_in (texts_of words.now)) }
    ensures guess { IfOk result (λ line. line.guess ≡ guess_in (texts_of words.now)) }
    ensures history { IfOk result (λ line. line.history ≡ history_in (texts_of words.now)) }
    ensures seed { IfOk result (λ line. line.seed ≡ seed_in (texts_of words.now)) }
    ensures size { IfOk result (λ line. line.size ≡ size_in (texts_of words.now)) }
    ensures refused { IsErrOf result LineError.Usage → IsTaken (texts_of words.now) → ⊥ }
{
    let matches = match cli(alloc)?.try_get_matches_from(words) {
        Ok(matches) => matches,
        Err(error) => return Err(fault_of(&error)),
    };
    Ok(line_of(alloc, &matches)?)
}

impl From<AllocError> for LineError {
    ghost from_gives = { λ _ e. e ≡ Memory };

    fn from(_e: AllocError) -> LineError {
        LineError::Memory
    }
}
