// Any number of a site record set to any value: a section's number at a place from 1, or at 0 its
// count. A place that there is not leaves the record as it is.
use site::Site;

fn set_number(numbers: &mut [u16], place: usize, value: u16) {
    if place == 0 {
        return;
    }
    if place <= numbers.len() {
        numbers[place - 1] = value;
    }
}

fn set_in(count: &mut u16, numbers: &mut [u16], place: usize, value: u16) {
    if place == 0 {
        *count = value;
    }
    set_number(numbers, place, value);
}

// The sections stand in the file's order, from 0. The timings' count is always 17, and is not kept.
pub fn with_number(mut site: Site, section: u16, place: usize, value: u16) -> Site {
    match section {
        0 => set_number(&mut site.timings, place, value),
        1 => set_in(&mut site.entries, &mut site.plan, place, value),
        2 => set_in(&mut site.holidays, &mut site.dates, place, value),
        3 => set_in(&mut site.levels, &mut site.tables, place, value),
        _ => {}
    }
    site
}
