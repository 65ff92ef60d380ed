// Joins the plan of a second site file, as that of roadworks, to the first's, and writes the first with the
// joined plan.
#![tactic(auto)]

mod joined;
mod report;

ghost use Rattle.std.specs.Prelude.{◌≡◌, ◌≤◌, length};
ghost use Rattle.refusals.specs.declared.Refusal.TheVariants.{TooManyEntries};
ghost use Rattle.join_plans.specs.Report.{ShortNames};

use refusals::Refusal;
use site::Site;
use std::rt::{Env, Files};
use streams::STDERR_FILENO;

const USAGE: &[u8] = b"usage: join_plans SITE ROADWORKS > JOINED\n";

// How many would remain, on standard error.
fn print_remaining(refusal: Refusal, name: &[u8], site: Site, other: &[u8], works: Site)
    requires { (refusal ≡ TooManyEntries) × ShortNames name.now site other.now works }
{
    let mut text = [0u8; report::REMAINING_ROOM];
    let n = report::fill_remaining(&mut text, refusal, name, site, other, works);
    io::write_all(STDERR_FILENO, &text[..n]);
}

// Which entries are dropped, on standard error.
fn print_report(name: &[u8], site: Site, other: &[u8], works: Site)
    requires { ShortNames name.now site other.now works }
{
    let mut text = [0u8; report::REPORT_ROOM];
    let n = report::fill_report(&mut text, name, site, other, works);
    io::write_all(STDERR_FILENO, &text[..n]);
}

fn print_joined(rt: &impl Print, name: &[u8], site: Site, other: &[u8], works: Site)
    requires { ShortNames name.now site other.now works }
{
    let mut file = [0u8; site_reader::FRONT];
    match joined::write(site, works, &mut file) {
        Ok(count) => {
            if site_program::write_front(rt, &file, count) {
                print_report(name, site, other, works);
            }
        }
        Err(refusal) => print_remaining(refusal, name, site, other, works),
    }
}

fn join_files(rt: &(impl Files + Print), name: &[u8], other: &[u8])
    requires { (length name.now ≤ 4096) × (length other.now ≤ 4096) }
{
    let Some(site) = site_input::site_of(rt, name, true, true) else {
        return;
    };
    if let Some(works) = site_input::site_of(rt, other, true, true) {
        print_joined(rt, name, site, other, works);
    }
}

fn join_asked(rt: &(impl Env + Files + Print)) {
    let mut name = io::buffer();
    let mut other = io::buffer();
    let Some(first) = site_program::asked_name(rt, 1, b"the first file's name", USAGE, &mut name)
    else {
        return;
    };
    let second = site_program::asked_name(rt, 2, b"the second file's name", USAGE, &mut other);
    if let Some(second) = second {
        join_files(rt, first.name, second.name);
    }
}

// The help, where the one argument asks for it; else how many are wanted.
fn print_other(rt: &(impl Env + Print), count: usize) {
    if count == 1 && site_program::asks_help(rt) {
        site_program::print_help(
            rt,
            USAGE,
            b"Joins the plan of ROADWORKS, a site file, to that of SITE, and writes SITE with the joined plan, as a site file.\nAn entry of SITE is dropped if one of ROADWORKS has the same start and all its days: on standard error stands which, or why\nnothing is written.\ndocs/FORMATS.md describes the site file and the lines.\n",
        );
        return;
    }
    site_program::print_wanted(count, b"2", USAGE);
}

fn main(rt: HostRuntime) {
    let count = site_program::arguments_given(&rt);
    if count == 2 {
        join_asked(&rt);
        return;
    }
    print_other(&rt, count);
}
