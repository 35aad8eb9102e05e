//! The file that has the records of a schema.

ghost use Rattle.std.specs.Prelude.{◌≡◌};
ghost use Rattle.graphql_text.specs.Memory.{Meets};
ghost use Rattle.graphql_data_files.specs.declared.data_file_error.DataFileError.TheVariants.{Memory};
ghost use Rattle.graphql_file_service.specs.TableServices.{records_in};

use graphql_data_files::{DataFileError, read_records};
use graphql_scalars::DefaultScalarValue;
use graphql_schema::SchemaType;
use graphql_table::{Records, table_types};
use std::alloc::Global;

/// Reads the files of records.
#[derive(Clone, Copy, Debug)]
pub struct DataFile;

impl DataFile {
    /// The records that a file has for a schema; or the first of the file's faults, in the order of
    /// [`DataFileError`], where `Memory` is want of memory, which tells nothing of the file.
    ///
    /// The file is a JSON object with the object `roots`, in which the text `query` is the id of
    /// the record from which queries start, and the list `records`. A record has the texts `id` and
    /// `type` and the object `fields`: null, truth values, texts, whole numbers of 32 bits, and
    /// lists of these, which may nest. At a field of a composite type each text is a link, the id
    /// of a record. Members of other names are passed over.
    pub fn read(
        alloc: Global,
        bytes: &[u8],
        schema: &SchemaType<DefaultScalarValue>,
    ) -> Result<Records, DataFileError>
        ensures { Meets (λ e. e ≡ Memory) result (records_in schema.now bytes.now) }
    {
        let types = table_types(alloc, schema)?;
        read_records(alloc, bytes, &types, schema.query_name())
    }
}
