//! A type that is no union, with what its values are read by.
ghost use Rattle.std.specs.Prelude.{◌≡◌, ◌<◌, IsTrue, length};
ghost use Rattle.sal_restrict.specs.declared.yang_type.YangType.{out-YangType};
ghost use Rattle.sal_schema.specs.Valid.{is_good_layer};
ghost use Rattle.sal_json.specs.Patterns.{plain_searched};

use crate::whole::Whole;
use sal_restrict::YangType;
use sal_schema::Schema;

/// A type that is no union, with its schema, the module of its leaf and its compiled patterns.
#[derive(Drop)]
pub(crate) struct PlainType<'a> {
    pub(crate) schema: &'a Schema,
    pub(crate) module: u32,
    pub(crate) ty: &'a YangType,
    pub(crate) wholes: &'a [Whole],
    pub(crate) ghost known: { «module» < length schema.now.modules },
    pub(crate) ghost good: { IsTrue (is_good_layer schema.now (out-YangType ty.now)) },
    pub(crate) ghost compiled: { wholes.now ≡ plain_searched ty.now },
}
