// The best plan at a point, the run of a compiled bouquet, and turns of two jobs of it in any order.
ghost use Rattle.std.specs.Prelude.{◌≡◌, ◌<◌, All, IfSome, IsTrue};
ghost use Rattle.query_block.specs.Blocks.{axes_of, block_tree, IsPutOf};
ghost use Rattle.db_catalog.specs.Fits.{Fits};
ghost use Rattle.cost_model.specs.Fits.{FitsBlock};

use crate::scripts::block_of;
use bouquet_run::{Book, run};
use bouquet_type::{Bouquet, RunFault};
use contours::compile;
use cost_model::{Costing, Stats};
use db_catalog::{Database, Metered};
use ess_grid::Grid;
use plan_space::best;
use plan_tree::plan_text;
use query_block::Block;
use row_stack::Space;
use std::alloc::Global;
use table_stats::stats_of;
use turns::{Job, JobState, take_turns};

// A block with the counts of its tables and its grid.
#[derive(Drop)]
struct Prepared {
    block: Block,
    stats: Stats,
    grid: Grid,
}

// The block of a query with these.
fn prepare(alloc: Global, db: &Database, query: &str) -> Option<Prepared>
    ensures stats { IfSome result (λ m. FitsBlock (block_tree m.block) m.stats) }
    ensures axes { IfSome result (λ m. m.grid.axes ≡ axes_of (block_tree m.block)) }
{
    let block = block_of(alloc, db, query)?;
    if !db.fits(&block) || block.axes() > 6 {
        return None;
    }
    let grid = Grid::new(block.axes(), None).ok()?;
    let stats = stats_of(alloc, db, &block).ok()?;
    Some(Prepared { block, stats, grid })
}

// The best plan of a query at the point of a place, and its cost.
pub(crate) fn best_at(alloc: Global, db: &Database, query: &str, asked: &[u32]) -> Option<String> {
    let place = *asked.first()? as usize;
    let prepared = prepare(alloc, db, query)?;
    if place >= prepared.grid.points() {
        return None;
    }
    let point = prepared.grid.point(place);
    let costing = Costing::new(&prepared.block, &prepared.stats, &prepared.grid);
    let (plan, cost) = best(alloc, &costing, &point).ok()?;
    let mut text = String::from_utf8(plan_text(alloc, &plan).ok()?).ok()?;
    write!(text, " {cost}").ok()?;
    Some(text)
}

// The compiled bouquet of a query, with a threshold in percent.
fn bouquet_of(alloc: Global, db: &Database, query: &str, threshold: u32) -> Option<Bouquet> {
    if threshold > 1000 {
        return None;
    }
    let Prepared { block, stats, grid } = prepare(alloc, db, query)?;
    compile(alloc, block, stats, grid, threshold).ok()
}

// The block of a bouquet without parameters, as it is executed.
fn executed(alloc: Global, db: &Database, bouquet: &Bouquet) -> Option<Block>
    ensures put { IfSome result (λ block.
        IsPutOf (block_tree bouquet.now.block) (block_tree block)) }
    ensures fits { IfSome result (λ block. Fits db.now (block_tree block)) }
{
    bouquet.block().fits_values(&[]).ok()?;
    let block = bouquet.block().put(alloc, &[]).ok()?;
    if db.fits(&block) { Some(block) } else { None }
}

// The rows and the work of the run of a bouquet; or what was spent, where that is all that may be.
fn run_text(
    alloc: Global,
    db: &Database,
    bouquet: &Bouquet,
    block: &Block,
    most: u64,
) -> Option<String>
    requires put { IsPutOf (block_tree bouquet.now.block) (block_tree block.now) }
    requires fits { Fits db.now (block_tree block.now) }
{
    let width = block.width();
    if width == 0 {
        return None;
    }
    let mut meter = Metered::new(db);
    let mut space = Space::new(alloc, width);
    let mut book = Book::new();
    match run(
        alloc, bouquet, block, &mut meter, &mut space, &mut book, most,
    ) {
        Ok(report) => format!(in alloc; "{} {}", report.rows, report.work).ok(),
        Err(RunFault::WorkLimit { spent }) => format!(in alloc; "limit {spent}").ok(),
        Err(RunFault::NoMemory) => None,
    }
}

// Whether each is the number of one of two jobs.
fn are_jobs(numbers: &[u32]) -> bool
    ensures { IsTrue result → All (λ number. number < 2) numbers.now }
{
    let [first, rest @ ..] = numbers else {
        return true;
    };
    *first < 2 && are_jobs(rest)
}

// Puts down how a job stands, and what it has spent.
fn put_standing(text: &mut String, job: &Job<'_>) -> Option<()> {
    let spent = job.spent();
    match job.state() {
        JobState::Running { place } => write!(text, "; running {place} {spent}").ok(),
        JobState::Answered => write!(text, "; answered {spent}").ok(),
        JobState::Limited => write!(text, "; limited {spent}").ok(),
        JobState::Broken => None,
    }
}

// What the run of a bouquet tells, and how two jobs of it stand after turns: the most work and the turns stand behind the
// threshold.
fn bouquet_text(alloc: Global, db: &Database, bouquet: &Bouquet, asked: &[u32]) -> Option<String> {
    let [_, most, turns @ ..] = asked else {
        return None;
    };
    if !are_jobs(turns) {
        return None;
    }
    let most = u64::from(*most);
    let block = executed(alloc, db, bouquet)?;
    let mut text = run_text(alloc, db, bouquet, &block, most)?;
    let mut jobs = [
        Job::new(alloc, db, bouquet, &block, most),
        Job::new(alloc, db, bouquet, &block, most),
    ];
    take_turns(alloc, &mut jobs, turns).ok()?;
    put_standing(&mut text, &jobs[0])?;
    put_standing(&mut text, &jobs[1])?;
    Some(text)
}

// The same of the compiled bouquet of a query.
pub(crate) fn jobs(alloc: Global, db: &Database, query: &str, asked: &[u32]) -> Option<String> {
    let bouquet = bouquet_of(alloc, db, query, *asked.first()?)?;
    bouquet_text(alloc, db, &bouquet, asked)
}
