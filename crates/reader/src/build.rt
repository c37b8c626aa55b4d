// "The plan text": rows count from 0 in the order of their lines. The plan grows in place by a line that was accepted.
#![tactic(auto, unfolding(crate::specs::Reading::empty_plan, crate::specs::Reading::with_subsystem, crate::specs::Reading::with_task, crate::specs::Reading::with_resource, crate::specs::Reading::with_use, crate::specs::Reading::with_line, plan::specs::Plan::place))]

ghost use Rattle.std.specs.Prelude.{◌≡◌, ◌≤◌, ◌<◌, Some};
ghost use Rattle.plan.specs.Limits.{most_subsystems, most_tasks, most_resources};
ghost use Rattle.reader.specs.Reading.{empty_plan, opened, with_subsystem, with_task, with_resource, with_use, with_line};
ghost use Rattle.reader.specs.Room.{Room};

use crate::Line;
use plan::Plan;

// The plan of no line at all.
pub fn empty_plan() -> Plan
    ensures { result ≡ empty_plan }
{
    Plan {
        subsystems: 0,
        tasks: 0,
        resources: 0,
        periods: [0; 8],
        budgets: [0; 8],
        owners: [0; 32],
        kinds: [0; 16],
        lengths: [0; 512],
    }
}

// S
fn with_subsystem(p: &mut Plan, period: u16, budget: u16)
    requires { p.old.subsystems < most_subsystems }
    ensures { p.new ≡ with_subsystem p.old period budget }
{
    let row = p.subsystems as usize;
    p.periods[row] = period;
    p.budgets[row] = budget;
    p.subsystems += 1;
}

// T
fn with_task(p: &mut Plan, subsystem: u8)
    requires { p.old.tasks < most_tasks }
    ensures { p.new ≡ with_task p.old subsystem }
{
    let row = p.tasks as usize;
    p.owners[row] = subsystem;
    p.tasks += 1;
}

// R, its lengths: a new resource is undeclared by each task.
fn open(lengths: &mut [u16; 512], tasks: u8, r: u8)
    requires { (tasks ≤ most_tasks) × (r < most_resources) }
    ensures { lengths.new ≡ opened tasks r lengths.old }
{
    for t in 0..tasks {
        lengths[(t as usize) * 16 + (r as usize)] = 65535;
    }
}

// R
fn with_resource(p: &mut Plan, kind: u8)
    requires { (p.old.resources < most_resources) × (p.old.tasks ≤ most_tasks) }
    ensures { p.new ≡ with_resource p.old kind }
{
    let tasks = p.tasks;
    let row = p.resources;
    open(&mut p.lengths, tasks, row);
    p.kinds[row as usize] = kind;
    p.resources += 1;
}

// U
fn with_use(p: &mut Plan, task: u32, resource: u32, ticks: u16)
    requires { (task < most_tasks) × (resource < most_resources) }
    ensures { p.new ≡ with_use p.old task resource ticks }
{
    let place = (task as usize) * 16 + (resource as usize);
    p.lengths[place] = ticks;
}

pub fn with_line(p: &mut Plan, l: Line)
    requires { Room p.old (Some l) }
    ensures { p.new ≡ with_line p.old (Some l) }
{
    match l {
        Line::Subsystem { period, budget } => with_subsystem(p, period as u16, budget as u16),
        Line::Task { subsystem } => with_task(p, subsystem as u8),
        Line::Resource { kind } => with_resource(p, kind),
        Line::Uses {
            task,
            resource,
            length,
        } => with_use(p, task, resource, length as u16),
    }
}
