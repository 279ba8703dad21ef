//! The text of a scene.
ghost use Rattle.std.specs.Prelude.{◌≡◌, IfOk};
ghost use Rattle.sal_shapes.specs.Shapes.{picture_of};
ghost use Rattle.sal_shapes.specs.Svg.{svg_of};

use crate::drawing::picture_of;
use crate::frame::MAX_PARTS;
use crate::scene::Scene;
use crate::svg::svg_of;
use sal_types::{Bytes, NoMemory, Seq};
use std::alloc::Global;

/// The text of the picture of a scene. It fails if memory runs out, or if there are `MAX_PARTS` rows, lanes or domains or more.
pub fn scene_text(alloc: Global, scene: Scene) -> Result<Bytes, NoMemory>
    ensures { IfOk result (λ text. text ≡ svg_of (picture_of scene)) }
{
    let few = scene.lanes.items().len() < MAX_PARTS && scene.domains.items().len() < MAX_PARTS;
    if !few || scene.rows.items().len() >= MAX_PARTS {
        return Err(NoMemory);
    }
    let picture = picture_of(alloc, scene)?;
    let text = svg_of(alloc, &picture)?;
    Ok(Seq::from_items(text))
}
