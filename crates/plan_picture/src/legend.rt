//! The head of a picture: how it looks, the profit, what marks look like, and the legend of the tasks.
ghost use Rattle.std.specs.Prelude.{◌≡◌, ◌<◌, ◌^◌, ◌++◌, OnOk, length};
ghost use Rattle.stn_model.specs.Sound.{Sound};
ghost use Rattle.plan_picture.specs.Picture.{size_line, word_style, row_style, task_style, page_style, style, page, ground_begin, profit_words, keys, legend_entry, legend, head};

use crate::bars::{push_colour_begin, push_edge};
use crate::captions::task_caption;
use crate::marks::{Frame, push_fitted, push_frame, push_words};
use crate::scale::tasks_in_line;
use crate::written::Written;
use plain_plan::profit_of;
use std::alloc::Global;
use stn_model::{Plant, Start};

/// Appends the size of the document, how it looks, and its white ground.
#[tactic(auto, unfolding(crate::specs::Picture::page))]
pub fn push_page(alloc: Global, text: &mut Vec<u8>, width: u64, height: u64) -> Written
    ensures { OnOk result (text.new.items ≡ text.old.items ++ page width height) }
{
    push_size(alloc, text, width, height)?;
    push_style(text)?;
    let ground = Frame {
        x: 0,
        y: 0,
        width,
        height,
    };
    push_frame(alloc, text, "page", ground)
}

#[tactic(auto, unfolding(crate::specs::Picture::size_line))]
fn push_size(alloc: Global, text: &mut Vec<u8>, width: u64, height: u64) -> Written
    ensures { OnOk result (text.new.items ≡ text.old.items ++ size_line width height) }
{
    let line = format!(in alloc;
        "<svg xmlns=\"http://www.w3.org/2000/svg\" viewBox=\"0 0 {width} {height}\" width=\"{width}\" height=\"{height}\">\n"
    )?;
    text.extend_from_slice(line.as_bytes())
}

// Appends how all classes look.
#[tactic(auto, unfolding(crate::specs::Picture::style))]
fn push_style(text: &mut Vec<u8>) -> Written
    ensures { OnOk result (text.new.items ≡ text.old.items ++ style) }
{
    push_word_style(text)?;
    push_row_style(text)?;
    push_task_style(text)?;
    push_page_style(text)
}

#[tactic(auto, unfolding(crate::specs::Picture::word_style))]
fn push_word_style(text: &mut Vec<u8>) -> Written
    ensures { OnOk result (text.new.items ≡ text.old.items ++ word_style) }
{
    text.extend_from_slice(
        "<style>\n.page{fill:#fff;stroke:none}\n.title{font-size:14px;font-weight:bold}\n.head{font-size:12px;font-weight:bold}\n.name{font-weight:bold}\n.time{text-anchor:middle;fill:#555}\n.task{fill:#000}\n.quanta{font-weight:bold;fill:#000}\n.most{fill:#b02a1c}\n".as_bytes(),
    )
}

#[tactic(auto, unfolding(crate::specs::Picture::row_style))]
fn push_row_style(text: &mut Vec<u8>) -> Written
    ensures { OnOk result (text.new.items ≡ text.old.items ++ row_style) }
{
    text.extend_from_slice(
        ".row{fill:#f0f0f0}\n.grid{stroke:#ccc;fill:none}\n.outage{fill:#bbb}\n.clean{stroke:#888;stroke-width:20px;stroke-dasharray:2 4;fill:none}\n.level{fill:#cfe3f5;stroke:#8fbce0}\n.limit{stroke:#b02a1c;stroke-dasharray:6 3;fill:none}\n.cloth{fill:#ffe08a}\n.pole{fill:#7a5200}\n".as_bytes(),
    )
}

#[tactic(auto, unfolding(crate::specs::Picture::task_style))]
fn push_task_style(text: &mut Vec<u8>) -> Written
    ensures { OnOk result (text.new.items ≡ text.old.items ++ task_style) }
{
    text.extend_from_slice(
        ".c0{fill:#7ad}\n.c1{fill:#e86}\n.c2{fill:#ed8}\n.c3{fill:#fab}\n.c4{fill:#9df}\n.c5{fill:#4b9}\n.c6{fill:#bc3}\n.c7{fill:#aa0}\n.d0{stroke:#333}\n.d1{stroke:#333;stroke-width:3px}\n.d2{stroke:#333;stroke-width:3px;stroke-dasharray:6 3}\n.d3{stroke:#333;stroke-width:3px;stroke-dasharray:2 3}\n.d4{stroke:#fff;stroke-width:3px;stroke-dasharray:4 4}\n".as_bytes(),
    )
}

#[tactic(auto, unfolding(crate::specs::Picture::page_style))]
fn push_page_style(text: &mut Vec<u8>) -> Written
    ensures { OnOk result (text.new.items ≡ text.old.items ++ page_style) }
{
    text.extend_from_slice(
        "@page{size:A3 landscape;margin:8mm}\n@media print{:root{width:404mm;height:281mm}}\n</style>\n".as_bytes(),
    )
}

/// Appends the margins, the profit, what marks look like, and the legend.
#[tactic(auto, unfolding(crate::specs::Picture::head))]
pub fn push_head(alloc: Global, text: &mut Vec<u8>, plant: &Plant, plan: &[Start]) -> Written
    requires sound { Sound plant.now }
    requires few { length plan.now < 2 ^ 32 }
    ensures { OnOk result (text.new.items ≡ text.old.items ++ head plant.now plan.now) }
{
    push_ground_begin(text)?;
    push_profit(alloc, text, profit_of(plant, plan))?;
    push_keys(text)?;
    push_legend(alloc, text, plant)
}

#[tactic(auto, unfolding(crate::specs::Picture::ground_begin))]
fn push_ground_begin(text: &mut Vec<u8>) -> Written
    ensures { OnOk result (text.new.items ≡ text.old.items ++ ground_begin) }
{
    text.extend_from_slice(
        "<g transform=\"translate(16 8)\" font-family=\"monospace\" font-size=\"10\" stroke=\"none\">\n".as_bytes(),
    )
}

#[tactic(auto, unfolding(crate::specs::Picture::profit_words))]
fn push_profit(alloc: Global, text: &mut Vec<u8>, profit: i128) -> Written
    ensures { OnOk result (text.new.items ≡ text.old.items ++ profit_words profit) }
{
    let title = format!(in alloc; "profit {profit}")?;
    push_words(alloc, text, "title", 0, 16, title.as_bytes())
}

#[tactic(auto, unfolding(crate::specs::Picture::keys))]
fn push_keys(text: &mut Vec<u8>) -> Written
    ensures { OnOk result (text.new.items ≡ text.old.items ++ keys) }
{
    text.extend_from_slice(
        "<rect class=\"outage\" x=\"240\" y=\"2\" width=\"24\" height=\"20\"/>\n<text class=\"task\" x=\"270\" y=\"16\">outage</text>\n<path class=\"clean\" d=\"M360 12h24\"/>\n<text class=\"task\" x=\"390\" y=\"16\">cleaning</text>\n<path class=\"limit\" d=\"M480 12h24\"/>\n<text class=\"most\" x=\"510\" y=\"16\">limit</text>\n<rect class=\"pole\" x=\"600\" y=\"2\" width=\"2\" height=\"20\"/>\n<rect class=\"cloth\" x=\"600\" y=\"2\" width=\"24\" height=\"11\"/>\n<text class=\"flag\" x=\"630\" y=\"16\">receipt +, delivery -</text>\n".as_bytes(),
    )
}

// Appends the legend: an entry for each task.
#[tactic(auto, using(crate::proofs::Ranges::pieces_next))]
fn push_legend(alloc: Global, text: &mut Vec<u8>, plant: &Plant) -> Written
    requires { Sound plant.now }
    ensures { OnOk result (text.new.items ≡ text.old.items ++ legend plant.now) }
{
    for task in 0..plant.tasks.len() {
        push_entry(alloc, text, plant, task as u32)?;
    }
    Ok(())
}

// Appends the entry of a task.
#[tactic(auto, unfolding(crate::specs::Picture::legend_entry))]
fn push_entry(alloc: Global, text: &mut Vec<u8>, plant: &Plant, task: u32) -> Written
    requires { Sound plant.now }
    ensures { OnOk result (text.new.items ≡ text.old.items ++ legend_entry plant.now task) }
{
    let line = tasks_in_line(plant);
    let x = 240 * (task as u64 % line);
    let y = 22 + 22 * (task as u64 / line);
    push_colour_begin(alloc, text, plant, task)?;
    let patch = Frame {
        x: x + 2,
        y: y + 3,
        width: 24,
        height: 16,
    };
    push_edge(alloc, text, task, patch)?;
    let name = task_caption(plant, task);
    push_fitted(alloc, text, "task", x + 32, y + 14, 34, name)?;
    text.extend_from_slice("</g>\n".as_bytes())
}
