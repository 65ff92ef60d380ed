// The first site with the plan that joins both, as a file.
ghost use Rattle.std.specs.Prelude.{◌≡◌, false, ◌⊎◌, ◌≤◌, length, take, Ok, IfOk, IsOk, IsOkAnd, IsErrOf};
ghost use Rattle.site.specs.Record.{spoilt_site};
ghost use Rattle.site.specs.Reading.{longest_file, read_of};
ghost use Rattle.joining.specs.Decided.{with_list};
ghost use Rattle.join_plans.specs.JoinedSite.{plan_of, joined_site, join_written, join_out};

use joining::PlanList;
use output::Written;
use refusals::Refusal;
use site::Site;

pub fn plan_of(site: Site) -> PlanList
    ensures { result ≡ plan_of site }
{
    // the check does not follow an array from a field straight into a literal
    let rows = site.plan;
    PlanList {
        rows,
        count: site.entries,
    }
}

fn with_list(site: Site, list: PlanList) -> Site
    ensures { result ≡ with_list site list }
{
    // as in plan_of
    let plan = list.rows;
    Site {
        entries: list.count,
        plan,
        ..site
    }
}

// Writes the file to the front of out. What is written reads back as the first site with the joined plan. Of two
// sites that a file could give, in a buffer with room for the longest file, 17 is the one refusal.
pub fn write(site: Site, works: Site, out: &mut [u8]) -> Written
    ensures answer { result ≡ join_written site works out.old }
    ensures buffer { out.new ≡ join_out site works out.old }
    ensures back { IfOk result (λ count. IsOkAnd (joined_site site works) (λ joined. read_of (take count out.new) ≡ Ok joined)) }
    ensures only { spoilt_site site ≡ false → spoilt_site works ≡ false → longest_file ≤ length out.old → IsOk result ⊎ IsErrOf result Refusal.TooManyEntries }
{
    let list = joining::join(plan_of(site), plan_of(works))?;
    site_writer::write(with_list(site, list), out)
}
