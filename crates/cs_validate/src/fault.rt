// The refusals of the judge of validity.
use cs_table::TableFault;

/// Why a document can't be judged: as there is no table of its values by all schemas that judge them.
pub type ValidateFault = TableFault;
