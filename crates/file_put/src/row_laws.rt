//! Laws of rows, type lists and class data, each the contract of a function that does nothing else.
ghost use Rattle.file_put.specs.inner.AtIndex.{TypeRowsStand, ProtoRowsStand, FieldRowsStand, MethodRowsStand};
ghost use Rattle.file_put.specs.inner.Once.{ClassDataIsOne, ClassRowsAreOne, NameRowsAreOne, TypeListIsOne};

/// In the tables each name's row is at the name's index.
pub fn rows_stand_at_their_indices()
    ensures types { TypeRowsStand }
    ensures protos { ProtoRowsStand }
    ensures fields { FieldRowsStand }
    ensures methods { MethodRowsStand }
{}

/// Names and the places of items decide the rows: each table is spelled in one way.
pub fn rows_are_one()
    ensures names { NameRowsAreOne }
    ensures classes { ClassRowsAreOne }
{}

/// By ranks, where each name has one, types have one list, and a class whose bodies have places has one class data.
pub fn lists_and_data_are_one()
    ensures lists { TypeListIsOne }
    ensures datas { ClassDataIsOne }
{}
