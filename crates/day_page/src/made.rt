//! The page of a day and a plan.

ghost use Rattle.std.specs.Prelude.{◌≡◌, IfOk, IfSome};
ghost use Rattle.desk_data.specs.Valid.{IsPlanFor};
ghost use Rattle.desk_rules.specs.Least.{least};
ghost use Rattle.output_texts.specs.Writable.{Names};

use crate::picture::{Picture, put_picture};
use crate::style::{PICTURE_STYLE, put_key, put_patterns};
use desk_data::{Broken, Instance, NoMem, Plan};
use full_check::full_check;
use output_texts::push_broken;
use page_parts::{
    Findings, Page, Part, TABLE_STYLE, changed_groups, changed_legs, cost_terms, date, put_costs,
    put_facts, put_footer, put_groups, put_legs,
};
use std::alloc::Global;

/// A page, and what its plan breaks first.
#[derive(Drop)]
pub(crate) struct MadePage {
    pub page: Page,
    pub broken: Option<Broken>,
}

// What is broken, as reports have it; nothing where nothing is.
fn broken_text(alloc: Global, inst: &Instance, broken: Option<Broken>) -> Result<Vec<u8>, NoMem>
    requires { IfSome broken (Names inst.now) }
{
    let mut text = Vec::new(alloc);
    match broken {
        None => {}
        Some(item) => push_broken(&mut text, inst, &item)?,
    }
    Ok(text)
}

// What a plan breaks first, as reports have it.
fn first_broken(alloc: Global, inst: &Instance, plan: &Plan) -> Result<Vec<u8>, NoMem>
    requires { IsPlanFor inst.now plan.now }
{
    let broken = full_check(alloc, inst, plan)?;
    broken_text(alloc, inst, broken)
}

// What the tables tell of a plan.
fn findings_of(
    alloc: Global,
    inst: &Instance,
    plan: &Plan,
    broken: Option<Broken>,
) -> Result<Findings, NoMem>
    requires plan { IsPlanFor inst.now plan.now }
    requires names { IfSome broken (Names inst.now) }
{
    let schedule = inst.schedule(alloc)?;
    let broken = broken_text(alloc, inst, broken)?;
    let broken_before = first_broken(alloc, inst, &schedule)?;
    let legs = changed_legs(alloc, inst, &schedule, plan)?;
    let groups = changed_groups(alloc, inst, &schedule, plan)?;
    Ok(Findings {
        broken,
        broken_before,
        before: cost_terms(inst, &schedule),
        after: cost_terms(inst, plan),
        legs,
        groups,
    })
}

// Puts all that comes before the body's content.
fn put_head(page: &mut Page, inst: &Instance) -> Result<(), NoMem> {
    page.put(&[
        Part::Own(
            "<!DOCTYPE html>\n<html lang=\"en\">\n<head>\n<meta charset=\"utf-8\">\n<meta name=\"viewport\" content=\"width=device-width, initial-scale=1\">\n<title>Recovery of ",
        ),
        Part::Given(&date(inst.window().0)),
        Part::Own("</title>\n<style>\n"),
        Part::Own(TABLE_STYLE),
        Part::Own(PICTURE_STYLE),
        Part::Own("</style>\n</head>\n<body>\n"),
    ])?;
    put_patterns(page)
}

// Puts the body's content.
fn put_body(
    page: &mut Page,
    alloc: Global,
    inst: &Instance,
    plan: &Plan,
    findings: &Findings,
) -> Result<(), NoMem>
    requires { IsPlanFor inst.now plan.now }
{
    let picture = Picture::of(alloc, inst, plan)?;
    put_facts(page, inst, findings)?;
    page.put(&[Part::Own("<h2>Aircraft</h2>\n")])?;
    put_key(page)?;
    put_picture(page, alloc, inst, &picture)?;
    put_costs(page, &findings.before, &findings.after)?;
    page.put(&[Part::Own("<div class=\"pair\">\n")])?;
    put_legs(
        page,
        alloc,
        inst,
        plan,
        picture.aboard(),
        findings.legs.as_slice(),
    )?;
    put_groups(page, alloc, inst, plan, findings.groups.as_slice())?;
    page.put(&[Part::Own("</div>\n")])?;
    put_footer(page)?;
    page.put(&[Part::Own("</body>\n</html>\n")])
}

// The page of a plan, by what it breaks.
fn page_of(
    alloc: Global,
    inst: &Instance,
    plan: &Plan,
    broken: Option<Broken>,
) -> Result<Page, NoMem>
    requires plan { IsPlanFor inst.now plan.now }
    requires names { IfSome broken (Names inst.now) }
{
    let findings = findings_of(alloc, inst, plan, broken)?;
    let mut page = Page::new(alloc);
    put_head(&mut page, inst)?;
    put_body(&mut page, alloc, inst, plan, &findings)?;
    Ok(page)
}

/// The page of a plan, with what the plan breaks first. The only error is out of memory.
pub(crate) fn made_page(alloc: Global, inst: &Instance, plan: &Plan) -> Result<MadePage, NoMem>
    requires { IsPlanFor inst.now plan.now }
    ensures { IfOk result (λ made. made.broken ≡ least inst.now plan.now) }
{
    let broken = full_check(alloc, inst, plan)?;
    let page = page_of(alloc, inst, plan, broken)?;
    Ok(MadePage { page, broken })
}
