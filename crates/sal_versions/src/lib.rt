//! From the texts of a domain's modules and upgrades to the versions of its schema, or the text of the first fault.
//!
//! | module | what it has |
//! |---|---|
//! | `schema` | `schema_of`: the schema that the texts of modules build |
//! | `versions` | `versions_of`: the schema of the modules, and one for each upgrade |
//! | `shared` | the schemas of versions, shared by readers and writers |
//! | `schema_fault` | `SchemaFault`: the texts of their faults |
//! | `examples` | computed: texts that are names of files |
//! | `laws` | each version extends the one before; the module of a load has one version |
//!
//! Texts are read by `sal_stmt`, and built by `sal_build`.
#![tactic(auto)]

pub mod examples;
pub mod laws;
pub mod schema;
pub mod schema_fault;
pub mod shared;
pub mod versions;
