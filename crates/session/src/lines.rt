// The printed lines of runs and of audits.
ghost use Rattle.std.specs.Prelude.{◌≡◌, ◌++◌, All, IfOk, OnOk};
ghost use Rattle.std.specs.List.{flat_map};
ghost use Rattle.audit_run.specs.Audits.{told_audit};
ghost use Rattle.bouquet_type.specs.Reports.{told_end};
ghost use Rattle.bouquet_type.specs.Trees.{bouquet_tree};
ghost use Rattle.learned_run.specs.Skips.{IsSkipOf};
ghost use Rattle.session.specs.Printed.{skip_line, report_line, yes_or_no, audit_line};

use audit_run::Audit;
use bouquet_type::{Bouquet, Report};
use learned_run::Skip;
use std::alloc::{AllocError, Global};
use workspace::{push_labelled, push_plan, push_point};

/// Appends the line below the rows of an answer.
pub(crate) fn push_report(
    alloc: Global,
    text: &mut Vec<u8>,
    report: &Report,
) -> Result<(), AllocError>
    ensures { OnOk result (text.new.items
        ≡ text.old.items ++ report_line report.now.rows (told_end report.now)) }
{
    push_labelled(text, "-- rows=", u128::from(report.rows))?;
    push_labelled(text, " work=", report.work)?;
    push_labelled(text, " runs=", u128::from(report.runs))?;
    push_labelled(text, " contour=", u128::from(report.contour))?;
    text.extend_from_slice(b" plan=")?;
    push_plan(alloc, text, &report.plan)?;
    text.push(b'\n')?;
    Ok(())
}

// Appends the line of an execution that a run of a bouquet skipped.
fn push_skip(
    alloc: Global,
    text: &mut Vec<u8>,
    bouquet: &Bouquet,
    skip: &Skip,
) -> Result<(), AllocError>
    requires { IsSkipOf (bouquet_tree bouquet.now) skip.now }
    ensures { OnOk result (text.new.items
        ≡ text.old.items ++ skip_line (bouquet_tree bouquet.now) skip.now) }
{
    let contour = &bouquet.contours()[skip.contour as usize - 1];
    push_labelled(text, "-- skip contour=", u128::from(skip.contour))?;
    text.extend_from_slice(b" plan=")?;
    push_plan(alloc, text, &contour.plans[skip.plan as usize - 1])?;
    text.extend_from_slice(b" point=")?;
    push_point(text, skip.point.levels())?;
    text.push(b'\n')?;
    Ok(())
}

/// Appends a line for each execution that a run of a bouquet skipped.
pub(crate) fn push_skips(
    alloc: Global,
    text: &mut Vec<u8>,
    bouquet: &Bouquet,
    skips: &[Skip],
) -> Result<(), AllocError>
    requires { All (IsSkipOf (bouquet_tree bouquet.now)) skips.now }
    ensures { OnOk result (text.new.items
        ≡ text.old.items ++ flat_map (skip_line (bouquet_tree bouquet.now)) skips.now) }
{
    for skip in skips {
        push_skip(alloc, text, bouquet, skip)?;
    }
    Ok(())
}

// How a test is told.
fn yes_or_no(holds: bool) -> &'static str
    ensures { result.now ≡ yes_or_no holds }
{
    if holds { "yes" } else { "no" }
}

/// The line of an audit.
pub(crate) fn audit_line(alloc: Global, audit: &Audit) -> Result<Vec<u8>, AllocError>
    ensures { IfOk result (λ text. text.items ≡ audit_line (told_audit audit.now)) }
{
    let mut text = Vec::from_slice(alloc, b"-- audit point=")?;
    push_point(&mut text, audit.point.levels())?;
    push_labelled(&mut text, " plans=", u128::from(audit.plans))?;
    text.extend_from_slice(b" below=")?;
    text.extend_from_slice(yes_or_no(audit.below).as_bytes())?;
    push_labelled(&mut text, " a=", audit.a)?;
    push_labelled(&mut text, " b=", audit.b)?;
    push_labelled(&mut text, " cheapest=", audit.cheapest)?;
    push_labelled(&mut text, " r=", u128::from(audit.r))?;
    push_labelled(&mut text, " work=", audit.work)?;
    text.push(b'\n')?;
    Ok(text)
}
